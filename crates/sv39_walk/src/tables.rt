// The walk, level by level (Privileged Architecture, "Virtual Address Translation Process").
ghost use Rattle.std.specs.Prelude.{◌≡◌, ◌<◌, ◌≤◌, ◌^◌, ◌*◌, ◌%◌, false};
ghost use Rattle.rv64_priv.specs.Walk as spec;
ghost use Rattle.step_laws.specs.Sections.{MayTouch};
ghost use Rattle.guest_ram.specs.Areas.{IsOfRam};
ghost use Rattle.guest_ram.specs.Ports.{layout_of, IsActing, GoesBy, StandsAs};
ghost use Rattle.sv39_walk.specs.Walking.{HasWalked, ShowsWalk, end_of};
ghost use Rattle.sv39_walk.specs.Levels.{HasStepped, IsBelow, WalksFrom};

use guest_ram::Port;
use rv64_priv::{Kind, PteKind, Regime, is_bare, is_canonical, leaf_end, pte_address, pte_kind};
use step_laws::{RAM_BASE, ram_word};

/// How a walk ends: at a leaf, with its page-table entry, the address of the physical page of 4096 bytes that it gives to the address, and
/// its level, 0 to 2; or in a fault. In bare mode there is a leaf 0xcf of level 0 for every address that leads to RAM or to a device.
#[derive(Clone, Copy, Debug, PartialEq, Eq)]
pub enum WalkEnd {
    Leaf { pte: u64, page: u64, level: u8 },
    PageFault,
    AccessFault,
}

/// What one level gives: an end, or the address of the table below.
#[derive(Clone, Copy)]
enum Stop {
    End(WalkEnd),
    Table(u64),
}

#[inline]
fn is_ram(pages: u32, pa: u64) -> bool
    ensures { result ≡ spec.is_ram pages pa }
{
    // Below RAM the difference wraps, to more than any size.
    pa.wrapping_sub(RAM_BASE) < 4096 * u64::from(pages)
}

#[inline]
fn is_device(pa: u64) -> bool
    ensures { result ≡ spec.is_device pa }
{
    pa / 4096 == 0x1_0000 || pa / 4096 == 0x100
}

/// The end at a leaf whose page is this: it has to be in RAM, or a device's that isn't fetched from.
fn reached(pages: u32, kind: Kind, pte: u64, page: u64, level: u8) -> WalkEnd
    ensures { end_of result ≡ spec.reachable_leaf pages kind pte page level }
{
    let reachable = match kind {
        Kind::Fetch => is_ram(pages, page),
        Kind::Load | Kind::Store => is_ram(pages, page) || is_device(page),
    };
    if reachable {
        WalkEnd::Leaf { pte, page, level }
    } else {
        WalkEnd::AccessFault
    }
}

/// The end at an entry that is a leaf.
fn at_leaf(pages: u32, regime: &Regime, kind: Kind, va: u64, level: u8, pte: u64) -> WalkEnd
    requires { level ≤ 2 }
    ensures { end_of result ≡ spec.at_leaf pages regime.now kind va level pte }
{
    match leaf_end(pte, va, level, kind, regime) {
        Some(page) => reached(pages, kind, pte, page, level),
        None => WalkEnd::PageFault,
    }
}

/// Reads the entry of the address in a table, and says how the walk goes on.
fn step<P: Port>(port: &mut P, regime: &Regime, va: u64, kind: Kind, level: u8, table: u64) -> Stop
    requires acting { IsActing (P.shows port.old) }
    requires may { MayTouch (layout_of (P.shows port.old)) (P.shows port.old).own.actor (P.shows port.old).own.steps }
    requires level { level ≤ 2 }
    requires table { table < 2 ^ 56 }
    ensures step { HasStepped regime.now kind va level table (P.shows port.old) (P.shows port.new) result }
    ensures below { IsBelow result }
    ensures stands { StandsAs (P.shows port.old) (P.shows port.new) }
    ensures acting { IsActing (P.shows port.new) }
    ensures goes { GoesBy 1 IsOfRam (P.shows port.old) (P.shows port.new) }
{
    let pages = port.layout().pages;
    let address = pte_address(table, va, level);
    if !is_ram(pages, address) {
        return Stop::End(WalkEnd::AccessFault);
    }
    let pte = port.load(ram_word(address));
    match pte_kind(pte) {
        PteKind::Malformed => Stop::End(WalkEnd::PageFault),
        PteKind::Pointer { table: below } => Stop::Table(below),
        PteKind::Leaf => Stop::End(at_leaf(pages, regime, kind, va, level, pte)),
    }
}

/// The walk from the root's table down.
fn walk_tables<P: Port>(port: &mut P, regime: &Regime, va: u64, kind: Kind, root: u64) -> WalkEnd
    requires acting { IsActing (P.shows port.old) }
    requires may { MayTouch (layout_of (P.shows port.old)) (P.shows port.old).own.actor (P.shows port.old).own.steps }
    requires table { root < 2 ^ 56 }
    ensures walked { WalksFrom regime.now kind va 3 root (P.shows port.old) (P.shows port.new) (end_of result) }
    ensures stands { StandsAs (P.shows port.old) (P.shows port.new) }
    ensures acting { IsActing (P.shows port.new) }
    ensures goes { GoesBy 3 IsOfRam (P.shows port.old) (P.shows port.new) }
{
    let first = match step(port, regime, va, kind, 2, root) {
        Stop::End(end) => return end,
        Stop::Table(table) => table,
    };
    let second = match step(port, regime, va, kind, 1, first) {
        Stop::End(end) => return end,
        Stop::Table(table) => table,
    };
    match step(port, regime, va, kind, 0, second) {
        Stop::End(end) => end,
        Stop::Table(_) => WalkEnd::PageFault,
    }
}

/// The walk of an address for a kind of access, by at most three loads. Each finds its word as it stands at that moment.
pub fn walk<P: Port>(port: &mut P, regime: &Regime, va: u64, kind: Kind) -> WalkEnd
    requires acting { IsActing (P.shows port.old) }
    requires may { MayTouch (layout_of (P.shows port.old)) (P.shows port.old).own.actor (P.shows port.old).own.steps }
    ensures walked { HasWalked regime.now kind va (P.shows port.old) (P.shows port.new) (end_of result) }
    ensures shown { ShowsWalk regime.now kind va (P.shows port.old) (P.shows port.new) (end_of result) }
    ensures stands { StandsAs (P.shows port.old) (P.shows port.new) }
    ensures acting { IsActing (P.shows port.new) }
    ensures goes { GoesBy 3 IsOfRam (P.shows port.old) (P.shows port.new) }
{
    if is_bare(regime) {
        let pages = port.layout().pages;
        return reached(pages, kind, 0xcf, va / 4096 * 4096, 0);
    }
    if !is_canonical(va) {
        return WalkEnd::PageFault;
    }
    let root = regime.satp % 0x1000_0000_0000 * 4096;
    walk_tables(port, regime, va, kind, root)
}
