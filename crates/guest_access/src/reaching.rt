// Where the bytes of an access lie.
ghost use Rattle.std.specs.Prelude.{◌≡◌, ◌<◌, ◌+◌, ◌%◌, ◌^◌, IsTrue};
ghost use Rattle.rv64_priv.specs.declared.state.Kind.TheVariants.{Store};
ghost use Rattle.rv64_exec.specs.Widths.{is_width};
ghost use Rattle.machine_model.specs.Access as model;
ghost use Rattle.guest_ram.specs.Ports.{GoesBy};
ghost use Rattle.tlb_fill.specs.Stepping.{IsArmedAt, IsOfFill};
ghost use Rattle.guest_access.specs.Reaching.{AreArmed, AreIn, CanAccess, GoesOn, HasReached, HasReachedSecond, IsLow, KnowsFills, first_reached, over_from, second_reached, within_page};
ghost use Rattle.guest_access.specs.Stepping.{IsIn};

use crate::outcomes::Got;
use guest_ram::Port;
use rv64_priv::{Kind, Regime, access_fault};
use tlb_entry::Book;
use tlb_fill::{Translated, translate};

/// Where the bytes of an access lie: within the word of RAM of a physical address; from an address on in one word and on into that of the other
/// address; or on a device.
#[derive(Clone, Copy)]
pub enum Place {
    Word(u64),
    Words { first: u64, second: u64 },
    Device(u64),
}

/// The access goes on into the next page.
fn crosses_page(va: u64, width: u8) -> bool
    requires { IsTrue (is_width width) }
    ensures { result ≡ model.crosses_page va width }
{
    va % 4096 + u64::from(width) > 4096
}

/// The next page's first address.
fn second_address(va: u64) -> u64
    ensures { result ≡ model.second_va va }
{
    (va / 4096 * 4096).wrapping_add(4096)
}

/// Bytes within a page of RAM: those that lie in two words may be touched in the section alone.
fn within_page(pa: u64, width: u8, section: bool) -> Result<Place, Got>
    requires width { IsTrue (is_width width) }
    requires low { pa < 2 ^ 63 }
    ensures { result ≡ within_page pa width section }
{
    if pa % 8 + u64::from(width) <= 8 {
        return Ok(Place::Word(pa));
    }
    if !section {
        return Err(Got::NeedsSection);
    }
    Ok(Place::Words {
        first: pa,
        second: pa + 8,
    })
}

/// What the first page's translation comes to where the access doesn't go on from RAM into the next page. No device takes an access over its
/// page's end.
fn first_reached(
    kind: Kind,
    va: u64,
    width: u8,
    section: bool,
    found: Translated,
) -> Result<Place, Got>
    requires width { IsTrue (is_width width) }
    requires low { IsLow found }
    ensures { result ≡ first_reached kind va width section found }
{
    match found {
        Translated::Ram(pa) => within_page(pa, width, section),
        Translated::Device(pa) => if crosses_page(va, width) {
            Err(Got::Fault {
                cause: access_fault(kind),
                tval: va,
            })
        } else {
            Ok(Place::Device(pa))
        },
        Translated::Fault { cause, tval } => Err(Got::Fault { cause, tval }),
        Translated::Busy(busy) => Err(Got::Busy(busy)),
    }
}

/// What the second page's translation comes to, for an access whose first page is in RAM. `next` is the second page's address.
fn second_reached(
    kind: Kind,
    next: u64,
    first: u64,
    section: bool,
    found: Translated,
) -> Result<Place, Got>
    ensures { result ≡ second_reached kind next first section found }
{
    match found {
        Translated::Ram(second) => if section {
            Ok(Place::Words { first, second })
        } else {
            Err(Got::NeedsSection)
        },
        Translated::Device(_) => Err(Got::Fault {
            cause: access_fault(kind),
            tval: next,
        }),
        Translated::Fault { cause, tval } => Err(Got::Fault { cause, tval }),
        Translated::Busy(busy) => Err(Got::Busy(busy)),
    }
}

/// The address in RAM from which the access goes on into the next page.
fn over_from(va: u64, width: u8, found: Translated) -> Option<u64>
    requires width { IsTrue (is_width width) }
    ensures { result ≡ over_from va width found }
{
    match found {
        Translated::Ram(pa) if crosses_page(va, width) => Some(pa),
        _ => None,
    }
}

/// Translates the second page of an access whose first one lies in RAM.
fn reach_second<P: Port>(
    book: &mut Book,
    port: &mut P,
    regime: &Regime,
    kind: Kind,
    va: u64,
    width: u8,
    first: u64,
    section: bool,
) -> Result<Place, Got>
    requires over { 8 < first % 8 + width }
    requires access { CanAccess book.old (P.shows port.old) }
    requires fills { KnowsFills book.old regime.now (P.shows port.old) }
    requires there { IsIn first (P.shows port.old) }
    requires armed { kind ≡ Store → IsArmedAt first (P.shows port.old) }
    ensures reached { HasReachedSecond (P.shows port.old) (P.shows port.new) book.old book.new regime.now kind va first section result }
    ensures goes_on { GoesOn (P.shows port.old) (P.shows port.new) book.old book.new regime.now }
    ensures there { AreIn width result (P.shows port.new) }
    ensures armed { kind ≡ Store → AreArmed result (P.shows port.new) }
    ensures access { CanAccess book.new (P.shows port.new) }
    ensures goes { GoesBy 15 IsOfFill (P.shows port.old) (P.shows port.new) }
{
    let next = second_address(va);
    let found = translate(book, port, regime, next, kind);
    second_reached(kind, next, first, section, found)
}

/// Translates the pages of an access, the first one first. `Err`: the access ends here.
pub(crate) fn reach<P: Port>(
    book: &mut Book,
    port: &mut P,
    regime: &Regime,
    kind: Kind,
    va: u64,
    width: u8,
    section: bool,
) -> Result<Place, Got>
    requires width { IsTrue (is_width width) }
    requires access { CanAccess book.old (P.shows port.old) }
    requires fills { KnowsFills book.old regime.now (P.shows port.old) }
    ensures reached { HasReached (P.shows port.old) (P.shows port.new) book.old book.new regime.now kind va width section result }
    ensures goes_on { GoesOn (P.shows port.old) (P.shows port.new) book.old book.new regime.now }
    ensures there { AreIn width result (P.shows port.new) }
    ensures armed { kind ≡ Store → AreArmed result (P.shows port.new) }
    ensures access { CanAccess book.new (P.shows port.new) }
    ensures goes { GoesBy 30 IsOfFill (P.shows port.old) (P.shows port.new) }
{
    let found = translate(book, port, regime, va, kind);
    match over_from(va, width, found) {
        Some(first) => reach_second(book, port, regime, kind, va, width, first, section),
        None => first_reached(kind, va, width, section, found),
    }
}
