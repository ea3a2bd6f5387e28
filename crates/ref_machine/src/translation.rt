// Fresh translations: each walk reads the page tables in RAM anew (Privileged Architecture, "Virtual Address
// Translation Process").
ghost use Rattle.std.specs.Prelude.{◌≡◌, ◌<◌, ◌≤◌, ◌+◌, ◌*◌, ◌^◌, length, false, IsTrue, IfOk};
ghost use Rattle.rv64_exec.specs.Widths.{is_width};
ghost use Rattle.rv64_priv.specs.Csr.{regime};
ghost use Rattle.rv64_priv.specs.Pte.{is_bare};
ghost use Rattle.rv64_priv.specs.Walk as walk;
ghost use Rattle.rv64_priv.specs.declared.state.Kind.{Kind as TheKind};
ghost use Rattle.machine_model.specs.Access as access;
ghost use Rattle.ref_machine.specs.SharedState.{ram_reads};
ghost use Rattle.ref_machine.specs.Translation.{end_of, spot, fetch_spot, reached_as, IsInside, IsInRam, IsSpotIn, IsSoundEnd, IsSmall};

use rv64_priv::{
    Arch, Kind, PteKind, Regime, access_fault, is_canonical, is_untranslated, leaf_end, page_fault,
    pte_address, pte_kind, regime_of,
};
use step_laws::RAM_BASE;

/// How a walk ended: at a leaf, with the physical address of the page of 4096 bytes that it gives, or in a fault.
#[derive(Clone, Copy)]
pub(crate) enum WalkEnd {
    Leaf { pte: u64, page: u64, level: u8 },
    PageFault,
    AccessFault,
}

/// A fault of an address: its cause, and the value for stval.
#[derive(Clone, Copy)]
pub(crate) struct Fault {
    pub cause: u64,
    pub tval: u64,
}

/// Where an address leads.
#[derive(Clone, Copy)]
pub(crate) enum Spot {
    Ram(u64),
    Device(u64),
    Faults(Fault),
}

/// Where the bytes of an access lie: in one word of RAM, by its index, from a byte of it on; over the end of
/// one and on in a second; on a device; or nowhere.
#[derive(Clone, Copy)]
pub(crate) enum Reach {
    Word {
        index: usize,
        offset: u64,
    },
    Words {
        first: usize,
        second: usize,
        offset: u64,
    },
    Device(u64),
    Faults(Fault),
}

/// RAM has a byte at this address.
#[inline]
pub(crate) fn is_ram(pages: u32, pa: u64) -> bool
    ensures { result ≡ walk.is_ram pages pa }
{
    // Below RAM the difference wraps, to more than any size.
    pa.wrapping_sub(RAM_BASE) < 4096 * u64::from(pages)
}

#[inline]
fn is_device(pa: u64) -> bool
    ensures { result ≡ walk.is_device pa }
{
    pa / 4096 == 0x1_0000 || pa / 4096 == 0x100
}

#[inline]
fn is_reachable(pages: u32, kind: Kind, pa: u64) -> bool
    ensures { result ≡ walk.is_reachable pages kind pa }
{
    match kind {
        Kind::Fetch => is_ram(pages, pa),
        Kind::Load | Kind::Store => is_ram(pages, pa) || is_device(pa),
    }
}

/// The end at a leaf: its page has to be there.
#[inline]
fn reached(pages: u32, kind: Kind, pte: u64, page: u64, level: u8) -> WalkEnd
    ensures { end_of result ≡ walk.reachable_leaf pages kind pte page level }
{
    if is_reachable(pages, kind, page) {
        WalkEnd::Leaf { pte, page, level }
    } else {
        WalkEnd::AccessFault
    }
}

/// The end at an entry that is a leaf.
#[inline]
pub(crate) fn at_leaf(
    pages: u32,
    regime: &Regime,
    kind: Kind,
    va: u64,
    level: u8,
    pte: u64,
) -> WalkEnd
    requires { level ≤ 2 }
    ensures { end_of result ≡ walk.at_leaf pages regime.now kind va level pte }
{
    match leaf_end(pte, va, level, kind, regime) {
        Some(page) => reached(pages, kind, pte, page, level),
        None => WalkEnd::PageFault,
    }
}

/// The walk from the root's table down.
#[inline(always)]
fn walk_from(ram: &[u64], pages: u32, regime: &Regime, kind: Kind, va: u64, root: u64) -> WalkEnd
    requires size { length ram.now ≡ 512 * pages }
    requires root { root < 2 ^ 56 }
    ensures { end_of result ≡ walk.walk_from pages regime.now kind (ram_reads ram.now) va 3 root }
{
    let mut table = root;
    for passed in 0..3 {
        let level = 2 - passed;
        let address = pte_address(table, va, level);
        if !is_ram(pages, address) {
            return WalkEnd::AccessFault;
        }
        let pte = ram[((address - RAM_BASE) / 8) as usize];
        match pte_kind(pte) {
            PteKind::Malformed => return WalkEnd::PageFault,
            PteKind::Pointer { table: below } => table = below,
            PteKind::Leaf => return at_leaf(pages, regime, kind, va, level, pte),
        }
    }
    WalkEnd::PageFault
}

/// The walk of an address through the page tables.
#[tactic(auto, unfolding(rv64_priv::specs::Walk::walk_of))]
#[inline(always)]
fn walk_tables(ram: &[u64], pages: u32, regime: &Regime, kind: Kind, va: u64) -> WalkEnd
    requires size { length ram.now ≡ 512 * pages }
    requires pages { pages ≤ 4096 }
    requires mode { is_bare regime.now ≡ false }
    ensures end { end_of result ≡ walk.walk_of pages regime.now kind (ram_reads ram.now) va }
    ensures sound { IsSoundEnd pages kind (end_of result) }
    ensures small { IsSmall (end_of result) }
{
    if !is_canonical(va) {
        return WalkEnd::PageFault;
    }
    let root = regime.satp % 0x1000_0000_0000 * 4096;
    walk_from(ram, pages, regime, kind, va, root)
}

/// The walk of an address.
#[tactic(auto, unfolding(rv64_priv::specs::Walk::walk_of))]
#[inline(always)]
fn walk(ram: &[u64], pages: u32, arch: &Arch, kind: Kind, va: u64) -> WalkEnd
    requires size { length ram.now ≡ 512 * pages }
    requires pages { pages ≤ 4096 }
    ensures end { end_of result ≡ walk.walk_of pages (regime arch.now) kind (ram_reads ram.now) va }
    ensures sound { IsSoundEnd pages kind (end_of result) }
    ensures small { IsSmall (end_of result) }
{
    if is_untranslated(arch) {
        return reached(pages, kind, 0xcf, va / 4096 * 4096, 0);
    }
    walk_tables(ram, pages, &regime_of(arch), kind, va)
}

/// The physical address of a fetch.
#[inline]
pub(crate) fn fetch_place(ram: &[u64], pages: u32, arch: &Arch, pc: u64) -> Result<u64, Fault>
    requires size { length ram.now ≡ 512 * pages }
    requires pages { pages ≤ 4096 }
    ensures place { fetch_spot result ≡ access.spot_of TheKind.Fetch pc (walk.walk_of pages (regime arch.now) TheKind.Fetch (ram_reads ram.now) pc) }
    ensures inside { IfOk result (λ pa. IsInRam pages pc pa) }
{
    match walk(ram, pages, arch, Kind::Fetch, pc) {
        WalkEnd::Leaf { page, .. } => Ok(page + pc % 4096),
        WalkEnd::PageFault => Err(Fault {
            cause: page_fault(Kind::Fetch),
            tval: pc,
        }),
        WalkEnd::AccessFault => Err(Fault {
            cause: access_fault(Kind::Fetch),
            tval: pc,
        }),
    }
}

/// Where an address leads.
#[inline(always)]
pub(crate) fn translate(ram: &[u64], pages: u32, arch: &Arch, kind: Kind, va: u64) -> Spot
    requires size { length ram.now ≡ 512 * pages }
    requires pages { pages ≤ 4096 }
    ensures spot { spot result ≡ access.spot_of kind va (walk.walk_of pages (regime arch.now) kind (ram_reads ram.now) va) }
    ensures inside { IsSpotIn pages va (spot result) }
{
    match walk(ram, pages, arch, kind, va) {
        WalkEnd::Leaf { page, .. } => {
            let pa = page + va % 4096;
            if is_device(pa) {
                Spot::Device(pa)
            } else {
                Spot::Ram(pa)
            }
        }
        WalkEnd::PageFault => Spot::Faults(Fault {
            cause: page_fault(kind),
            tval: va,
        }),
        WalkEnd::AccessFault => Spot::Faults(Fault {
            cause: access_fault(kind),
            tval: va,
        }),
    }
}

/// Where the bytes of an access lie. Where it goes on over its page's end, the second page is translated behind
/// the first, and neither may be a device's.
#[inline(always)]
pub(crate) fn reach_of(
    ram: &[u64],
    pages: u32,
    arch: &Arch,
    kind: Kind,
    va: u64,
    width: u8,
) -> Reach
    requires size { length ram.now ≡ 512 * pages }
    requires pages { pages ≤ 4096 }
    requires width { IsTrue (is_width width) }
    ensures reach { reached_as width result ≡ access.reach kind va width (walk.walk_of pages (regime arch.now) kind (ram_reads ram.now) va) (walk.walk_of pages (regime arch.now) kind (ram_reads ram.now) (access.second_va va)) }
    ensures inside { IsInside (length ram.now) width result }
{
    let first = translate(ram, pages, arch, kind, va);
    if va % 4096 + u64::from(width) > 4096 {
        return over_pages(ram, pages, arch, kind, va, width, first);
    }
    match first {
        Spot::Ram(pa) => {
            let index = ((pa - RAM_BASE) / 8) as usize;
            let offset = pa % 8;
            if offset + u64::from(width) <= 8 {
                Reach::Word { index, offset }
            } else {
                Reach::Words {
                    first: index,
                    second: index + 1,
                    offset,
                }
            }
        }
        Spot::Device(pa) => Reach::Device(pa),
        Spot::Faults(fault) => Reach::Faults(fault),
    }
}

/// The reach of an access over two pages, the first of which leads there.
#[inline(never)]
fn over_pages(
    ram: &[u64],
    pages: u32,
    arch: &Arch,
    kind: Kind,
    va: u64,
    width: u8,
    first: Spot,
) -> Reach
    requires size { length ram.now ≡ 512 * pages }
    requires pages { pages ≤ 4096 }
    requires width { IsTrue (is_width width) }
    requires first { spot first ≡ access.spot_of kind va (walk.walk_of pages (regime arch.now) kind (ram_reads ram.now) va) }
    requires place { IsSpotIn pages va (spot first) }
    requires crosses { IsTrue (access.crosses_page va width) }
    ensures reach { reached_as width result ≡ access.reach kind va width (walk.walk_of pages (regime arch.now) kind (ram_reads ram.now) va) (walk.walk_of pages (regime arch.now) kind (ram_reads ram.now) (access.second_va va)) }
    ensures inside { IsInside (length ram.now) width result }
{
    let pa = match first {
        Spot::Ram(pa) => pa,
        Spot::Device(_) => return Reach::Faults(Fault {
            cause: access_fault(kind),
            tval: va,
        }),
        Spot::Faults(fault) => return Reach::Faults(fault),
    };
    let second_va = (va / 4096 * 4096).wrapping_add(4096);
    match translate(ram, pages, arch, kind, second_va) {
        Spot::Ram(pb) => Reach::Words {
            first: ((pa - RAM_BASE) / 8) as usize,
            second: ((pb - RAM_BASE) / 8) as usize,
            offset: pa % 8,
        },
        Spot::Device(_) => Reach::Faults(Fault {
            cause: access_fault(kind),
            tval: second_va,
        }),
        Spot::Faults(fault) => Reach::Faults(fault),
    }
}
