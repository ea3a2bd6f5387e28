// Turns of a running hart in a row: instructions that change no more than registers, pc and words of RAM. What these
// leave as it is, is asked for once.
ghost use Rattle.std.specs.Prelude.{◌≡◌, ◌≢◌, ◌<◌, ◌≤◌, ◌+◌, ℕ, None, false, IsTrue};
ghost use Rattle.rv64_decode.specs.Encoding.{IsInRange};
ghost use Rattle.rv64_exec.specs.Finish.{done, next, retire};
ghost use Rattle.rv64_exec.specs.Plan.{address, need_of, reg};
ghost use Rattle.rv64_exec.specs.Widths.{is_width};
ghost use Rattle.rv64_exec.specs.declared.needs.Answer.{Answer as TheAnswer};
ghost use Rattle.rv64_exec.specs.declared.needs.Need.{Need as TheNeed};
ghost use Rattle.machine_model.specs.declared.mode.Mode.TheVariants.{Started};
ghost use Rattle.machine_model.specs.Lawful.{is_pending};
ghost use Rattle.ref_machine.specs.OneTurn as one;
ghost use Rattle.ref_machine.specs.Given.{Is};
ghost use Rattle.rv64_priv.specs.Csr.{regime};
ghost use Rattle.ref_machine.specs.Paths.{ArePaths, AreWalks};
ghost use Rattle.ref_machine.specs.Steps.{IsAhead, IsShort};

use crate::accesses::{fetch_near, load_near, store_near};
use crate::decoder::Decoder;
use crate::hart::HartSlot;
use crate::paths::{Paths, Walks, renew};
use crate::shared::Shared;
use crate::step::is_interrupted;
use rv64_decode::Instr;
use rv64_exec::{address, compute, next, reg, retire};
use rv64_priv::pc_of;

/// Counts an instruction that doesn't reach its hart's limit.
#[inline(always)]
fn count_one(slot: &mut HartSlot, shared: &Shared)
    requires { slot.old.count + 1 < shared.now.limit }
    ensures { slot.new ≡ record slot.old { count = slot.old.count + 1 } }
{
    // A limit fits, and so does the sum.
    let _limit = shared.limit;
    slot.count += 1;
}

/// Does a load of RAM or a device, and counts it; false, and nothing changed, where it faults.
#[inline(always)]
#[tactic(auto, using(crate::proofs::Short::loaded, crate::proofs::Short::short_retire))]
fn load(
    slot: &mut HartSlot,
    shared: &Shared,
    paths: &mut Paths,
    instr: &Instr,
    rd: u8,
    base: u8,
    imm: i32,
    width: u8,
    signed: bool,
) -> bool
    requires going { shared.now.reason ≡ None }
    requires below { slot.old.count + 1 < shared.now.limit }
    requires width { IsTrue (is_width width) }
    requires rd { rd < 32 }
    requires base { base < 32 }
    requires need { need_of slot.old.arch instr.now ≡ TheNeed.Load (address slot.old.arch base imm) width signed }
    requires paths { ArePaths shared.now.layout.pages (regime slot.old.arch) paths.old }
    requires does { (value : ℕ) → done slot.old.arch instr.now (TheAnswer.Value value) ≡ retire slot.old.arch rd value }
    ensures done { IsTrue result → (h : ℕ) → Is slot.new shared.now (one.retired h slot.old instr.now (one.effect_of_need h slot.old.arch shared.now (need_of slot.old.arch instr.now))) }
    ensures short { IsTrue result → IsShort slot.old shared.now slot.new shared.now }
    ensures kept { result ≡ false → slot.new ≡ slot.old }
    ensures paths { ArePaths shared.now.layout.pages (regime slot.old.arch) paths.new }
{
    let va = address(&slot.arch, base, imm);
    let Some(value) = load_near(&slot.arch, shared, paths, va, width, signed) else {
        return false;
    };
    retire(rd, value, &mut slot.arch);
    count_one(slot, shared);
    true
}

/// Does a store within a word of RAM, and counts it; false, and nothing changed, where it leads elsewhere.
#[inline(always)]
#[tactic(auto, using(crate::proofs::Short::stored, crate::proofs::Short::short_store))]
fn store(
    slot: &mut HartSlot,
    shared: &mut Shared,
    paths: &mut Paths,
    instr: &Instr,
    base: u8,
    source: u8,
    imm: i32,
    width: u8,
) -> bool
    requires going { shared.old.reason ≡ None }
    requires below { slot.old.count + 1 < shared.old.limit }
    requires width { IsTrue (is_width width) }
    requires base { base < 32 }
    requires source { source < 32 }
    requires need { need_of slot.old.arch instr.now ≡ TheNeed.Store (address slot.old.arch base imm) width (reg slot.old.arch source) }
    requires paths { ArePaths shared.old.layout.pages (regime slot.old.arch) paths.old }
    requires does { done slot.old.arch instr.now TheAnswer.Nothing ≡ next slot.old.arch }
    ensures done { IsTrue result → (h : ℕ) → Is slot.new shared.new (one.retired h slot.old instr.now (one.effect_of_need h slot.old.arch shared.old (need_of slot.old.arch instr.now))) }
    ensures short { IsTrue result → IsShort slot.old shared.old slot.new shared.new }
    ensures kept { result ≡ false → (slot.new ≡ slot.old) × (shared.new ≡ shared.old) }
    ensures paths { ArePaths shared.old.layout.pages (regime slot.old.arch) paths.new }
{
    let va = address(&slot.arch, base, imm);
    let value = reg(&slot.arch, source);
    if !store_near(&slot.arch, shared, paths, va, width, value) {
        return false;
    }
    next(&mut slot.arch);
    count_one(slot, shared);
    true
}

/// Does an instruction that its hart does by itself, and counts it; false, and nothing changed, for every other.
#[inline(always)]
#[tactic(auto, using(crate::proofs::Short::computed, crate::proofs::Short::short_alone))]
fn compute_counted(slot: &mut HartSlot, shared: &Shared, instr: &Instr) -> bool
    requires going { shared.now.reason ≡ None }
    requires below { slot.old.count + 1 < shared.now.limit }
    requires range { IsInRange instr.now }
    ensures done { IsTrue result → (h : ℕ) → Is slot.new shared.now (one.retired h slot.old instr.now (one.effect_of_need h slot.old.arch shared.now (need_of slot.old.arch instr.now))) }
    ensures needs { IsTrue result → need_of slot.old.arch instr.now ≡ TheNeed.Nothing }
    ensures short { IsTrue result → IsShort slot.old shared.now slot.new shared.now }
    ensures kept { result ≡ false → slot.new ≡ slot.old }
{
    if !compute(&mut slot.arch, instr) {
        return false;
    }
    count_one(slot, shared);
    true
}

/// Does an instruction of registers and RAM, and counts it; false, and nothing changed, for every other.
#[inline(always)]
#[tactic(auto, unfolding(rv64_exec::specs::Finish::done, rv64_exec::specs::Plan::need_of))]
fn execute_short(slot: &mut HartSlot, shared: &mut Shared, paths: &mut Paths, instr: &Instr) -> bool
    requires going { shared.old.reason ≡ None }
    requires below { slot.old.count + 1 < shared.old.limit }
    requires range { IsInRange instr.now }
    requires paths { ArePaths shared.old.layout.pages (regime slot.old.arch) paths.old }
    ensures done { IsTrue result → (h : ℕ) → Is slot.new shared.new (one.retired h slot.old instr.now (one.effect_of_need h slot.old.arch shared.old (need_of slot.old.arch instr.now))) }
    ensures other { IsTrue result → need_of slot.old.arch instr.now ≢ TheNeed.Sbi }
    ensures short { IsTrue result → IsShort slot.old shared.old slot.new shared.new }
    ensures kept { result ≡ false → (slot.new ≡ slot.old) × (shared.new ≡ shared.old) }
    ensures paths { ArePaths shared.old.layout.pages (regime slot.old.arch) paths.new }
{
    match *instr {
        Instr::Lb { rd, rs1, imm } => load(slot, shared, paths, instr, rd, rs1, imm, 1, true),
        Instr::Lh { rd, rs1, imm } => load(slot, shared, paths, instr, rd, rs1, imm, 2, true),
        Instr::Lw { rd, rs1, imm } => load(slot, shared, paths, instr, rd, rs1, imm, 4, true),
        Instr::Ld { rd, rs1, imm } => load(slot, shared, paths, instr, rd, rs1, imm, 8, true),
        Instr::Lbu { rd, rs1, imm } => load(slot, shared, paths, instr, rd, rs1, imm, 1, false),
        Instr::Lhu { rd, rs1, imm } => load(slot, shared, paths, instr, rd, rs1, imm, 2, false),
        Instr::Lwu { rd, rs1, imm } => load(slot, shared, paths, instr, rd, rs1, imm, 4, false),
        Instr::Sb { rs1, rs2, imm } => store(slot, shared, paths, instr, rs1, rs2, imm, 1),
        Instr::Sh { rs1, rs2, imm } => store(slot, shared, paths, instr, rs1, rs2, imm, 2),
        Instr::Sw { rs1, rs2, imm } => store(slot, shared, paths, instr, rs1, rs2, imm, 4),
        Instr::Sd { rs1, rs2, imm } => store(slot, shared, paths, instr, rs1, rs2, imm, 8),
        _ => compute_counted(slot, shared, instr),
    }
}

/// Takes up to so many turns; answers how many.
#[inline(never)]
fn run_short(
    hart: u8,
    slot: &mut HartSlot,
    shared: &mut Shared,
    decoder: &mut Decoder,
    paths: &mut Paths,
    most: u64,
) -> u64
    requires hart { hart < 8 }
    requires started { slot.old.mode ≡ Started }
    requires going { shared.old.reason ≡ None }
    requires quiet { is_pending slot.old.arch hart shared.old.ipi ≡ false }
    requires below { slot.old.count + most < shared.old.limit }
    requires paths { ArePaths shared.old.layout.pages (regime slot.old.arch) paths.old }
    ensures most { result ≤ most }
    ensures ahead { IsAhead hart result slot.old shared.old slot.new shared.new }
    ensures paths { ArePaths shared.new.layout.pages (regime slot.new.arch) paths.new }
{
    for taken in 0..most {
        let Some(word) = fetch_near(&slot.arch, shared, paths) else {
            return taken;
        };
        let Some(instr) = decoder.find(word, pc_of(&slot.arch)) else {
            return taken;
        };
        if !execute_short(slot, shared, paths, instr) {
            return taken;
        }
    }
    most
}

/// Takes up to so many turns of a started hart, none of which takes an interrupt, traps, or reaches its limit; answers how
/// many.
pub(crate) fn run(
    hart: u8,
    slot: &mut HartSlot,
    shared: &mut Shared,
    decoder: &mut Decoder,
    walks: &mut Walks,
    most: u64,
) -> u64
    requires hart { hart < 8 }
    requires started { slot.old.mode ≡ Started }
    requires going { shared.old.reason ≡ None }
    requires below { slot.old.count < shared.old.limit }
    requires walks { AreWalks walks.old }
    ensures most { result ≤ most }
    ensures ahead { IsAhead hart result slot.old shared.old slot.new shared.new }
    ensures below { slot.new.count < shared.new.limit }
    ensures walks { AreWalks walks.new }
{
    if is_interrupted(hart, &slot.arch, shared) {
        return 0;
    }
    // The turn that reaches the limit is not one of them.
    let room = shared.limit - slot.count - 1;
    renew(walks, &slot.arch, shared);
    run_short(
        hart,
        slot,
        shared,
        decoder,
        &mut walks.paths,
        most.min(room),
    )
}
