// Entries and their compare words.
ghost use Rattle.std.specs.Prelude.{◌≡◌, ◌≤◌, if◌then◌else◌};
ghost use Rattle.rv64_priv.specs.Pte.{has_a_and_d};
ghost use Rattle.rv64_priv.specs.declared.state.Kind.TheVariants as kinds;
ghost use Rattle.tlb_entry.specs.Compare.{field_of, hit};
ghost use Rattle.tlb_entry.specs.Filled.{is_open, serves, word_for};

use rv64_priv::{Kind, Regime, is_set, permits};
use step_laws::TlbField;

/// A compare word that hits nowhere.
const INVALID: u64 = 1;

const NOT_DIRTY: u64 = 1 << 1;

const DEVICE: u64 = 1 << 2;

const USER: u64 = 1 << 3;

/// What has to agree: the page, the mode, and that the word is valid.
const COMPARED: u64 = 0xffff_ffff_ffff_f009;

/// What a slot of a TLB holds: the compare words for loads, stores and fetches, and the address of the physical page.
#[derive(Clone, Copy, Debug, PartialEq, Eq)]
pub struct Entry {
    pub read: u64,
    pub write: u64,
    pub code: u64,
    pub page: u64,
}

/// The field of a slot that an access of this kind compares with.
#[inline]
pub fn compare_field(kind: Kind) -> TlbField
    ensures { result ≡ field_of kind }
{
    match kind {
        Kind::Load => TlbField::Read,
        Kind::Store => TlbField::Write,
        Kind::Fetch => TlbField::Code,
    }
}

// The leaf's A and D, as bits of its page-table entry.
const ACCESSED: u32 = 6;

const DIRTY: u32 = 7;

fn has_a_and_d(pte: u64, kind: Kind) -> bool
    ensures { result ≡ has_a_and_d pte kind }
{
    match kind {
        Kind::Fetch | Kind::Load => is_set(pte, ACCESSED),
        Kind::Store => is_set(pte, ACCESSED) && is_set(pte, DIRTY),
    }
}

fn is_open(device: bool, kind: Kind) -> bool
    ensures { result ≡ is_open device kind }
{
    match kind {
        Kind::Fetch => !device,
        Kind::Load | Kind::Store => true,
    }
}

fn serves(pte: u64, device: bool, kind: Kind, regime: &Regime) -> bool
    ensures { result ≡ serves pte device regime.now kind }
{
    permits(pte, kind, regime) && has_a_and_d(pte, kind) && is_open(device, kind)
}

/// The compare word of a kind: `valid` where the leaf serves it.
fn word_of(pte: u64, device: bool, kind: Kind, regime: &Regime, valid: u64) -> u64
    ensures { result ≡ (if serves pte device regime.now kind then valid else 1) }
{
    if serves(pte, device, kind, regime) {
        valid
    } else {
        INVALID
    }
}

#[inline]
fn mode_bit(user: bool) -> u64
    ensures value { result ≡ (if user then 8 else 0) }
    ensures small { result ≤ 8 }
{
    if user { USER } else { 0 }
}

/// The entry of an address whose walk gave this leaf and this physical page: valid for each kind of access that the leaf serves under the
/// regime. In bare mode the leaf is 0xcf, which serves every kind.
pub fn entry_of(pte: u64, va: u64, page: u64, device: bool, regime: &Regime) -> Entry
    ensures read { result.read ≡ word_for pte va device regime.now kinds.Load }
    ensures write { result.write ≡ word_for pte va device regime.now kinds.Store }
    ensures code { result.code ≡ word_for pte va device regime.now kinds.Fetch }
    ensures page { result.page ≡ page }
{
    let of_device = if device { DEVICE } else { 0 };
    let not_dirty = if device { 0 } else { NOT_DIRTY };
    let valid = va / 4096 * 4096 + of_device + mode_bit(regime.user);
    Entry {
        read: word_of(pte, device, Kind::Load, regime, valid),
        write: word_of(pte, device, Kind::Store, regime, valid + not_dirty),
        code: word_of(pte, device, Kind::Fetch, regime, valid),
        page,
    }
}

/// A compare word is valid, for the page of this address and for this mode.
#[inline]
pub fn hits(compare: u64, va: u64, user: bool) -> bool
    ensures { result ≡ hit compare va user }
{
    compare & COMPARED == va / 4096 * 4096 + mode_bit(user)
}
