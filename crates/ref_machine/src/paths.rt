// Walks that led to a page of RAM. They are kept by what they read: where their entries stand in RAM as they were, a walk
// leads to the same page.
ghost use Rattle.std.specs.Prelude.{Ok, IsTrue, ◌≡◌, ◌≤◌, ◌<◌, ◌*◌, ◌/◌, ◌^◌, length, IfSome};
ghost use Rattle.rv64_priv.specs.declared.state.Kind.{Kind as TheKind};
ghost use Rattle.rv64_priv.specs.Csr.{regime};
ghost use Rattle.machine_model.specs.Access as access;
ghost use Rattle.ref_machine.specs.OneTurn as one;
ghost use Rattle.ref_machine.specs.OneTurn.{IsWordOf};
ghost use Rattle.ref_machine.specs.Paths.{IsLeafTo, AreThere, AreWalks, IsEntry, IsPath, IsPathIf};
ghost use Rattle.ref_machine.specs.Translation.{IsWord};

use crate::shared::Shared;
use crate::step::half_at;
use crate::translation::{WalkEnd, at_leaf, is_ram};
use rv64_priv::{
    Arch, Kind, PteKind, Regime, is_bare, is_canonical, pc_of, pte_address, pte_kind, regime_of,
};
use step_laws::RAM_BASE;

/// An entry of a page table, and the index of its word in RAM.
#[derive(Clone, Copy)]
pub(crate) struct Entry {
    pub index: usize,
    pub pte: u64,
}

/// A walk: the page of its address, the entries of the root's table and of the two below, and the index in RAM of the
/// first word of the page that it led to.
#[derive(Clone, Copy)]
pub(crate) struct Path {
    pub page: u64,
    pub root: Entry,
    pub middle: Entry,
    pub last: Entry,
    pub base: usize,
}

/// The entry that a walk reads in a table, where that lies in RAM.
#[inline]
fn entry_in(ram: &[u64], pages: u32, table: u64, va: u64, level: u8) -> Option<Entry>
    requires size { length ram.now ≡ 512 * pages }
    requires table { table < 2 ^ 56 }
    requires level { level ≤ 2 }
    ensures entry { IfSome result (λ entry. IsEntry pages table (va / 4096) level entry) }
    ensures there { IfSome result (λ entry. entry.index < 512 * pages) }
{
    let address = pte_address(table, va, level);
    if !is_ram(pages, address) {
        return None;
    }
    let index = ((address - RAM_BASE) / 8) as usize;
    Some(Entry {
        index,
        pte: ram[index],
    })
}

/// The index of the first word of the page of RAM to which a leaf leads.
#[inline]
fn page_of(pages: u32, regime: &Regime, kind: Kind, va: u64, level: u8, pte: u64) -> Option<usize>
    requires { level ≤ 2 }
    ensures { IfSome result (λ base. IsLeafTo pages regime.now kind (va / 4096) level pte base) }
{
    let WalkEnd::Leaf { page, .. } = at_leaf(pages, regime, kind, va, level, pte) else {
        return None;
    };
    if !is_ram(pages, page) {
        return None;
    }
    Some(((page - RAM_BASE) / 8) as usize)
}

/// The walk of an address, where it leads to a page of RAM. A leaf above the lowest level stands for the entries below it.
#[inline(never)]
fn path_of(ram: &[u64], pages: u32, regime: &Regime, kind: Kind, va: u64) -> Option<Path>
    requires size { length ram.now ≡ 512 * pages }
    ensures { IfSome result (λ path. IsPath pages regime.now kind path) }
{
    if is_bare(regime) || !is_canonical(va) {
        return None;
    }
    let page = va / 4096;
    let root = entry_in(ram, pages, regime.satp % 0x1000_0000_0000 * 4096, va, 2)?;
    let below = match pte_kind(root.pte) {
        PteKind::Malformed => return None,
        PteKind::Leaf => {
            let base = page_of(pages, regime, kind, va, 2, root.pte)?;
            return Some(Path {
                page,
                root,
                middle: root,
                last: root,
                base,
            });
        }
        PteKind::Pointer { table } => table,
    };
    let middle = entry_in(ram, pages, below, va, 1)?;
    let lowest = match pte_kind(middle.pte) {
        PteKind::Malformed => return None,
        PteKind::Leaf => {
            let base = page_of(pages, regime, kind, va, 1, middle.pte)?;
            return Some(Path {
                page,
                root,
                middle,
                last: middle,
                base,
            });
        }
        PteKind::Pointer { table } => table,
    };
    let last = entry_in(ram, pages, lowest, va, 0)?;
    let PteKind::Leaf = pte_kind(last.pte) else {
        return None;
    };
    let base = page_of(pages, regime, kind, va, 0, last.pte)?;
    Some(Path {
        page,
        root,
        middle,
        last,
        base,
    })
}

/// The last walks of fetches, loads and stores that led to a page of RAM.
#[derive(Clone, Copy)]
pub(crate) struct Paths {
    pub fetch: Option<Path>,
    pub load: Option<Path>,
    pub store: Option<Path>,
}

/// A hart's last walks, and what they depend on besides memory: how many pages RAM has, and the regime.
#[derive(Clone, Copy)]
pub(crate) struct Walks {
    pub pages: u32,
    pub regime: Regime,
    pub paths: Paths,
}

impl Walks {
    /// No walks yet.
    pub(crate) fn new(pages: u32, regime: Regime) -> Walks
        ensures kept { AreWalks result }
        ensures pages { result.pages ≡ pages }
        ensures regime { result.regime ≡ regime }
    {
        Walks {
            pages,
            regime,
            paths: Paths {
                fetch: None,
                load: None,
                store: None,
            },
        }
    }
}

/// The regimes are the same.
#[inline]
fn is_same_regime(one: &Regime, other: &Regime) -> bool
    ensures { IsTrue result → one.now ≡ other.now }
{
    one.satp == other.satp && one.user == other.user && one.sum == other.sum && one.mxr == other.mxr
}

/// Keeps the walks where they are of the hart's regime, and else none.
#[inline]
pub(crate) fn renew(walks: &mut Walks, arch: &Arch, shared: &Shared)
    requires { AreWalks walks.old }
    ensures kept { AreWalks walks.new }
    ensures pages { walks.new.pages ≡ shared.now.layout.pages }
    ensures regime { walks.new.regime ≡ regime arch.now }
{
    let regime = regime_of(arch);
    let pages = shared.layout.pages;
    if walks.pages != pages || !is_same_regime(&walks.regime, &regime) {
        *walks = Walks::new(pages, regime);
    }
}

/// The walk of an address, where it leads to a page of RAM.
#[inline(never)]
pub(crate) fn path_to(arch: &Arch, shared: &Shared, kind: Kind, va: u64) -> Option<Path>
    ensures { IsPathIf shared.now.layout.pages (regime arch.now) kind result }
{
    path_of(
        shared.ram.as_slice(),
        shared.layout.pages,
        &regime_of(arch),
        kind,
        va,
    )
}

/// The address is of the walk's page, and its entries stand in RAM.
#[inline(always)]
fn is_on(path: &Path, ram: &[u64], va: u64) -> bool
    requires root { path.now.root.index < length ram.now }
    requires middle { path.now.middle.index < length ram.now }
    requires last { path.now.last.index < length ram.now }
    ensures page { IsTrue result → va / 4096 ≡ path.now.page }
    ensures there { IsTrue result → AreThere ram.now path.now }
{
    va / 4096 == path.page
        && ram[path.root.index] == path.root.pte
        && ram[path.middle.index] == path.middle.pte
        && ram[path.last.index] == path.last.pte
}

/// The hart's next word, where the walk leads to it.
#[inline(always)]
pub(crate) fn fetch_on(path: Option<Path>, arch: &Arch, shared: &Shared) -> Option<u32>
    requires { IsPathIf shared.now.layout.pages (regime arch.now) TheKind.Fetch path }
    ensures { IfSome result (λ word. IsWord shared.now.ram (access.spot_of TheKind.Fetch arch.now.pc (one.walk_end arch.now shared.now TheKind.Fetch arch.now.pc)) (Ok word)) }
{
    let path = path?;
    let pc = pc_of(arch);
    let ram = shared.ram.as_slice();
    if !is_on(&path, ram, pc) {
        return None;
    }
    Some(half_at(ram[path.base + (pc % 4096 / 8) as usize], pc))
}

/// The index of RAM's word that has all bytes of an access, where the walk leads to it.
#[inline(always)]
pub(crate) fn word_on(
    path: Option<Path>,
    arch: &Arch,
    shared: &Shared,
    kind: Kind,
    va: u64,
    width: u8,
) -> Option<usize>
    requires { IsPathIf shared.now.layout.pages (regime arch.now) kind path }
    ensures { IfSome result (λ index. IsWordOf arch.now shared.now kind va width index) }
{
    let path = path?;
    if va % 8 + u64::from(width) > 8 {
        return None;
    }
    if !is_on(&path, shared.ram.as_slice(), va) {
        return None;
    }
    Some(path.base + (va % 4096 / 8) as usize)
}
