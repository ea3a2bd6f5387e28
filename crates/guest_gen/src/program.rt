// The program of the text.
ghost use Rattle.std.specs.Prelude.{◌≡◌, ◌++◌, ◌∷◌, OnOk, string_bytes, codes};
ghost use Rattle.asm_laws.specs.Texts.{with_feeds};
ghost use Rattle.guest_gen.specs.Text.{lines_before, lines_behind, rounds_line};

use std::alloc::AllocError;

/// Up to the number of rounds: harts are started one after another, and each turns its translation on.
const BEFORE: &str = "\
li s1, 1\n\
more: li a7, 0x48534d\n\
li a6, 0\n\
mv a0, s1\n\
la a1, work\n\
mv a2, x0\n\
ecall\n\
bne a0, x0, go\n\
addi s1, s1, 1\n\
j more\n\
go: mv a0, x0\n\
work: mv s0, a0\n\
la t0, root\n\
srli t0, t0, 12\n\
li t1, 8\n\
slli t1, t1, 60\n\
or t0, t0, t1\n\
csrrw x0, satp, t0\n\
";

/// Behind it: rounds of a remap, a fence and reads; then the sums are added, and hart 0 prints them.
const BEHIND: &str = "\
li s3, 0\n\
slli s4, s0, 21\n\
li t0, 4096\n\
add s4, s4, t0\n\
la s5, low\n\
slli t0, s0, 12\n\
add s5, s5, t0\n\
la s6, frames\n\
slli t0, s0, 13\n\
add s6, s6, t0\n\
li s7, 0\n\
round: andi t0, s3, 1\n\
slli t0, t0, 12\n\
add t0, t0, s6\n\
srli t0, t0, 2\n\
ori t0, t0, 0xc7\n\
sd t0, 8(s5)\n\
li a7, 0x52464e43\n\
li a6, 1\n\
li a0, 0\n\
li a1, -1\n\
mv a2, s4\n\
li a3, 4096\n\
ecall\n\
ld t0, 0(s4)\n\
add s7, s7, t0\n\
li t1, 0x2000000\n\
li t2, 64\n\
touch: ld t0, 0(t1)\n\
add s7, s7, t0\n\
li t3, 4096\n\
add t1, t1, t3\n\
addi t2, t2, -1\n\
bne t2, x0, touch\n\
addi s3, s3, 1\n\
bne s3, s2, round\n\
la t0, total\n\
amoadd.d x0, s7, (t0)\n\
la t0, ended\n\
li t1, 1\n\
amoadd.d x0, t1, (t0)\n\
bne s0, x0, halt\n\
wait: wfi\n\
la t0, ended\n\
ld t1, 0(t0)\n\
bne t1, s1, wait\n\
la t0, total\n\
ld s2, 0(t0)\n\
li s3, 60\n\
digit: srl t0, s2, s3\n\
andi t0, t0, 15\n\
li t2, 48\n\
slti t3, t0, 10\n\
bne t3, x0, small\n\
li t2, 87\n\
small: add a0, t0, t2\n\
li a7, 1\n\
ecall\n\
addi s3, s3, -4\n\
bge s3, x0, digit\n\
li a0, 10\n\
li a7, 1\n\
ecall\n\
li a7, 0x53525354\n\
li a6, 0\n\
li a0, 0\n\
li a1, 0\n\
ecall\n\
halt: li a7, 0x48534d\n\
li a6, 1\n\
ecall\n\
.org 0x80008000\n\
total: .dword 0\n\
ended: .dword 0\n\
.org 0x80010000\n\
root: .dword 0x20004401, 0, 0x200000cf\n\
";

#[tactic(auto, unfolding(crate::specs::Text::lines_before))]
fn push_before(text: &mut String) -> Result<(), AllocError>
    ensures { OnOk result (string_bytes text.new ≡ string_bytes text.old ++ with_feeds lines_before) }
{
    text.push_str(BEFORE)
}

#[tactic(auto, unfolding(crate::specs::Text::lines_behind))]
fn push_behind(text: &mut String) -> Result<(), AllocError>
    ensures { OnOk result (string_bytes text.new ≡ string_bytes text.old ++ with_feeds lines_behind) }
{
    text.push_str(BEHIND)
}

fn push_rounds(text: &mut String, number: u32) -> Result<(), AllocError>
    ensures { OnOk result (string_bytes text.new ≡ string_bytes text.old ++ (rounds_line number ++ codes "\n")) }
{
    let rounds = 100 * (1 + number % 100);
    write!(text, "li s2, {rounds}\n")
}

/// Appends the program, with how often each hart remaps its window.
pub(crate) fn push_program(text: &mut String, number: u32) -> Result<(), AllocError>
    ensures { OnOk result (string_bytes text.new ≡ string_bytes text.old ++ with_feeds (lines_before ++ rounds_line number ∷ lines_behind)) }
{
    push_before(text)?;
    push_rounds(text, number)?;
    push_behind(text)?;
    Ok(())
}
