// Fetches, loads and stores of a started hart in a row of turns: in bare mode at once, and else by the last walk of their
// kind where its entries stand in RAM as they were.
ghost use Rattle.std.specs.Prelude.{◌≡◌, IfSome, IsTrue, None, Ok, false};
ghost use Rattle.rv64_exec.specs.Widths.{is_width};
ghost use Rattle.rv64_exec.specs.declared.needs.Answer.{Answer as TheAnswer};
ghost use Rattle.rv64_priv.specs.Csr.{regime};
ghost use Rattle.rv64_priv.specs.declared.state.Kind.{Kind as TheKind};
ghost use Rattle.machine_model.specs.Access as access;
ghost use Rattle.machine_model.specs.Perform as perform;
ghost use Rattle.ref_machine.specs.OneTurn as one;
ghost use Rattle.ref_machine.specs.OneTurn.{IsWordOf};
ghost use Rattle.ref_machine.specs.Paths.{ArePaths};
ghost use Rattle.ref_machine.specs.SharedState.{ram_memory};
ghost use Rattle.ref_machine.specs.Translation.{IsWord};

use crate::paths::{Paths, fetch_on, path_to, word_on};
use crate::shared::Shared;
use crate::step::{fetch, fetch_bare};
use machine_model::{extended, number_in, replace_in};
use rv64_priv::{Arch, Kind, pc_of};

/// The hart's next word, where its fetch doesn't fault.
#[inline(always)]
pub(crate) fn fetch_near(arch: &Arch, shared: &Shared, paths: &mut Paths) -> Option<u32>
    requires { ArePaths shared.now.layout.pages (regime arch.now) paths.old }
    ensures word { IfSome result (λ word. IsWord shared.now.ram (access.spot_of TheKind.Fetch arch.now.pc (one.walk_end arch.now shared.now TheKind.Fetch arch.now.pc)) (Ok word)) }
    ensures paths { ArePaths shared.now.layout.pages (regime arch.now) paths.new }
{
    if let Some(word) = fetch_bare(arch, shared) {
        return Some(word);
    }
    if let Some(word) = fetch_on(paths.fetch, arch, shared) {
        return Some(word);
    }
    fetch_by_walk(arch, shared, paths)
}

#[inline(never)]
fn fetch_by_walk(arch: &Arch, shared: &Shared, paths: &mut Paths) -> Option<u32>
    requires { ArePaths shared.now.layout.pages (regime arch.now) paths.old }
    ensures word { IfSome result (λ word. IsWord shared.now.ram (access.spot_of TheKind.Fetch arch.now.pc (one.walk_end arch.now shared.now TheKind.Fetch arch.now.pc)) (Ok word)) }
    ensures paths { ArePaths shared.now.layout.pages (regime arch.now) paths.new }
{
    paths.fetch = path_to(arch, shared, Kind::Fetch, pc_of(arch));
    if let Some(word) = fetch_on(paths.fetch, arch, shared) {
        return Some(word);
    }
    match fetch(arch, shared) {
        Ok(word) => Some(word),
        Err(_) => None,
    }
}

/// The index of RAM's word that has all bytes of a load, where that is found at once.
#[inline(always)]
fn load_place(arch: &Arch, shared: &Shared, paths: &Paths, va: u64, width: u8) -> Option<usize>
    requires { ArePaths shared.now.layout.pages (regime arch.now) paths.now }
    ensures { IfSome result (λ index. IsWordOf arch.now shared.now TheKind.Load va width index) }
{
    if let Some(index) = shared.bare_word(arch, va, width) {
        return Some(index);
    }
    word_on(paths.load, arch, shared, Kind::Load, va, width)
}

/// The index of RAM's word that has all bytes of a store, where that is found at once.
#[inline(always)]
fn store_place(arch: &Arch, shared: &Shared, paths: &Paths, va: u64, width: u8) -> Option<usize>
    requires { ArePaths shared.now.layout.pages (regime arch.now) paths.now }
    ensures { IfSome result (λ index. IsWordOf arch.now shared.now TheKind.Store va width index) }
{
    if let Some(index) = shared.bare_word(arch, va, width) {
        return Some(index);
    }
    word_on(paths.store, arch, shared, Kind::Store, va, width)
}

/// The value of a load in a register, where its word is found at once.
#[inline(always)]
fn load_at_once(
    arch: &Arch,
    shared: &Shared,
    paths: &Paths,
    va: u64,
    width: u8,
    signed: bool,
) -> Option<u64>
    requires width { IsTrue (is_width width) }
    requires paths { ArePaths shared.now.layout.pages (regime arch.now) paths.now }
    ensures { IfSome result (λ value. one.effect_on shared.now (perform.load_outcome (ram_memory shared.now.ram) va width signed (one.reach_of arch.now shared.now TheKind.Load va width)) ≡ one.answers shared.now (TheAnswer.Value value)) }
{
    let index = load_place(arch, shared, paths, va, width)?;
    let number = number_in(shared.ram[index], va % 8, width);
    Some(extended(signed, width, number))
}

/// The value of a load in a register, where it doesn't fault.
#[inline(always)]
pub(crate) fn load_near(
    arch: &Arch,
    shared: &Shared,
    paths: &mut Paths,
    va: u64,
    width: u8,
    signed: bool,
) -> Option<u64>
    requires width { IsTrue (is_width width) }
    requires paths { ArePaths shared.now.layout.pages (regime arch.now) paths.old }
    ensures value { IfSome result (λ value. one.effect_on shared.now (perform.load_outcome (ram_memory shared.now.ram) va width signed (one.reach_of arch.now shared.now TheKind.Load va width)) ≡ one.answers shared.now (TheAnswer.Value value)) }
    ensures paths { ArePaths shared.now.layout.pages (regime arch.now) paths.new }
{
    if let Some(value) = load_at_once(arch, shared, paths, va, width, signed) {
        return Some(value);
    }
    load_by_walk(arch, shared, paths, va, width, signed)
}

#[inline(never)]
fn load_by_walk(
    arch: &Arch,
    shared: &Shared,
    paths: &mut Paths,
    va: u64,
    width: u8,
    signed: bool,
) -> Option<u64>
    requires width { IsTrue (is_width width) }
    requires paths { ArePaths shared.now.layout.pages (regime arch.now) paths.old }
    ensures value { IfSome result (λ value. one.effect_on shared.now (perform.load_outcome (ram_memory shared.now.ram) va width signed (one.reach_of arch.now shared.now TheKind.Load va width)) ≡ one.answers shared.now (TheAnswer.Value value)) }
    ensures paths { ArePaths shared.now.layout.pages (regime arch.now) paths.new }
{
    paths.load = path_to(arch, shared, Kind::Load, va);
    if let Some(value) = load_at_once(arch, shared, paths, va, width, signed) {
        return Some(value);
    }
    match shared.load(arch, va, width, signed) {
        Ok(value) => Some(value),
        Err(_) => None,
    }
}

/// Stores within a word of RAM; false, and memory is unchanged, where the access leads elsewhere.
#[inline(always)]
pub(crate) fn store_near(
    arch: &Arch,
    shared: &mut Shared,
    paths: &mut Paths,
    va: u64,
    width: u8,
    value: u64,
) -> bool
    requires width { IsTrue (is_width width) }
    requires paths { ArePaths shared.old.layout.pages (regime arch.now) paths.old }
    ensures stored { IsTrue result → one.effect_on shared.old (perform.store_outcome (ram_memory shared.old.ram) (one.room shared.old) va width value (one.reach_of arch.now shared.old TheKind.Store va width)) ≡ one.done_with shared.new TheAnswer.Nothing None }
    ensures rest { shared.new ≡ record shared.old { ram = shared.new.ram } }
    ensures kept { result ≡ false → shared.new ≡ shared.old }
    ensures paths { ArePaths shared.old.layout.pages (regime arch.now) paths.new }
{
    if let Some(index) = store_place(arch, shared, paths, va, width) {
        shared.ram[index] = replace_in(shared.ram[index], va % 8, width, value);
        return true;
    }
    store_by_walk(arch, shared, paths, va, width, value)
}

#[inline(never)]
fn store_by_walk(
    arch: &Arch,
    shared: &mut Shared,
    paths: &mut Paths,
    va: u64,
    width: u8,
    value: u64,
) -> bool
    requires width { IsTrue (is_width width) }
    requires paths { ArePaths shared.old.layout.pages (regime arch.now) paths.old }
    ensures stored { IsTrue result → one.effect_on shared.old (perform.store_outcome (ram_memory shared.old.ram) (one.room shared.old) va width value (one.reach_of arch.now shared.old TheKind.Store va width)) ≡ one.done_with shared.new TheAnswer.Nothing None }
    ensures rest { shared.new ≡ record shared.old { ram = shared.new.ram } }
    ensures kept { result ≡ false → shared.new ≡ shared.old }
    ensures paths { ArePaths shared.old.layout.pages (regime arch.now) paths.new }
{
    paths.store = path_to(arch, shared, Kind::Store, va);
    if let Some(index) = store_place(arch, shared, paths, va, width) {
        shared.ram[index] = replace_in(shared.ram[index], va % 8, width, value);
        return true;
    }
    shared.store_in_ram(arch, va, width, value)
}
