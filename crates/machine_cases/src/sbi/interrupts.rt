// Software interrupts that harts send, to themselves and to others (Privileged Architecture, "Supervisor Interrupt (sip
// and sie) Registers").
ghost use Rattle.std.specs.Prelude.{◌≡◌, ◌<◌};

use super::fences::named_want;
use super::{FAR, go_on, machine_with, play};
use case_guests::RAM;
use ref_machine::PlainMachine;
use sbi_rows::{ALL_RUN, INTERRUPTS_OF_FOUR, MaskRow, Named, SEND, SENT};
use std::alloc::Global;
use std::process::Abort;
use std::test::Fail;

/// The cause of a supervisor's software interrupt.
const SOFTWARE: u64 = 0x8000_0000_0000_0001;

/// sstatus behind a trap from supervisor mode that found SIE set: SPIE and SPP.
const TRAPPED: u64 = 0x120;

/// Enables the software interrupt, with a vectored handler, and sends one to itself at 0x80000020.
const SELF: [u32; 9] = [
    0x0000_0297, // auipc x5, 0
    0x1012_8293, // addi x5, x5, 0x101
    0x1052_9073, // csrrw x0, stvec, x5
    0x1041_5073, // csrrwi x0, sie, 2
    0x1001_6073, // csrrsi x0, sstatus, 2
    0x0073_58b7, // lui x17, 0x735
    0x0498_8893, // addi x17, x17, 0x49
    0x0010_0513, // addi x10, x0, 1
    0x0000_0073, // ecall
];

/// A hart's pc, x10, scause and count.
fn compare(rt: &impl Abort, machine: &PlainMachine, hart: u8, want: (u64, u64, u64, u64))
    requires { hart < machine.now.shared.layout.harts }
{
    let arch = machine.arch(hart);
    let found = (arch.pc, arch.x[10], arch.scause, machine.count(hart));
    assert_eq!(rt; found, want, "hart {hart}");
}

#[test]
fn a_hart_interrupts_itself(rt: HostRuntime) -> Result<(), Fail> {
    let segments = [(RAM, SELF.as_slice())];
    let mut machine = machine_with(rt.alloc(), 1, FAR, &segments)?;
    go_on(&rt, &mut machine, 0, 8);
    compare(&rt, &machine, 0, (0x8000_0020, 1, 0, 8));
    go_on(&rt, &mut machine, 0, 1);
    compare(&rt, &machine, 0, (0x8000_0024, 0, 0, 9));
    assert_eq!(rt; machine.arch(0).x[11], 0);
    // an interrupt is no instruction
    go_on(&rt, &mut machine, 0, 1);
    compare(&rt, &machine, 0, (0x8000_0104, 0, SOFTWARE, 9));
    let arch = machine.arch(0);
    assert_eq!(rt;
        (arch.sepc, arch.stval, arch.sstatus),
        (0x8000_0024, 0, TRAPPED)
    );
    Ok(())
}

/// Hart 0 starts hart 1, sends it an interrupt, and reads its own sip. Hart 1 has the interrupt enabled, and counts.
const ACROSS: [u32; 20] = [
    0x0000_0597, // auipc x11, 0
    0x0345_8593, // addi x11, x11, 0x34
    0x0010_0513, // addi x10, x0, 1
    0x0048_58b7, // lui x17, 0x485
    0x34d8_8893, // addi x17, x17, 0x34d
    0x0000_0073, // ecall
    0x0073_58b7, // lui x17, 0x735
    0x0498_8893, // addi x17, x17, 0x49
    0x0020_0513, // addi x10, x0, 2
    0x0000_0593, // addi x11, x0, 0
    0x0000_0073, // ecall
    0x1440_24f3, // csrrs x9, sip, x0
    0x0000_006f, // jal x0, pc + 0
    0x0000_0297, // auipc x5, 0
    0x0cd2_8293, // addi x5, x5, 0xcd
    0x1052_9073, // csrrw x0, stvec, x5
    0x1041_5073, // csrrwi x0, sie, 2
    0x1001_6073, // csrrsi x0, sstatus, 2
    0x0013_0313, // addi x6, x6, 1
    0xffdf_f06f, // jal x0, pc - 4
];

#[test]
fn a_hart_interrupts_another(rt: HostRuntime) -> Result<(), Fail> {
    let segments = [(RAM, ACROSS.as_slice())];
    let mut machine = machine_with(rt.alloc(), 2, FAR, &segments)?;
    go_on(&rt, &mut machine, 0, 6);
    // it begins, and takes seven instructions
    go_on(&rt, &mut machine, 1, 8);
    compare(&rt, &machine, 1, (0x8000_0048, 1, 0, 7));
    go_on(&rt, &mut machine, 0, 6);
    compare(&rt, &machine, 0, (0x8000_0030, 0, 0, 12));
    let arch = machine.arch(0);
    assert_eq!(rt; (arch.x[11], arch.x[9]), (0, 0));
    compare(&rt, &machine, 1, (0x8000_0048, 1, 0, 7));
    go_on(&rt, &mut machine, 1, 1);
    compare(&rt, &machine, 1, (0x8000_0104, 1, SOFTWARE, 7));
    let arch = machine.arch(1);
    assert_eq!(rt;
        (arch.sepc, arch.stval, arch.sstatus, arch.x[6]),
        (0x8000_0048, 0, TRAPPED, 1)
    );
    compare(&rt, &machine, 0, (0x8000_0030, 0, 0, 12));
    Ok(())
}

/// A hart's sip, which it reads behind its call.
fn read_sip(machine: &mut PlainMachine, hart: u8) -> u64
    requires { hart < machine.old.shared.layout.harts }
    ensures { machine.new.shared.layout.harts ≡ machine.old.shared.layout.harts }
{
    machine.turn(hart);
    machine.arch(hart).x[9]
}

/// What each of four harts finds in its sip, where only these were sent an interrupt.
fn sips_of(named: Named) -> [u64; 4] {
    let harts = match named {
        Named::Harts(harts) => harts,
        Named::All => 0xf,
        Named::Missing => 0,
    };
    [
        2 * (harts % 2),
        2 * (harts / 2 % 2),
        2 * (harts / 4 % 2),
        2 * (harts / 8 % 2),
    ]
}

/// Hart 0 of four that run sends by a mask and a base; each hart's sip is then as wanted.
fn all_sips_become(rt: &impl Abort, alloc: Global, row: MaskRow) -> Result<(), Fail> {
    let (mask, base, named) = row;
    let mut rows = ALL_RUN.to_vec(alloc)?;
    rows.push((0, SEND, [mask, base, 0, 0], named_want(named)))?;
    let mut machine = play(rt, alloc, 4, FAR, &rows)?;
    let found = [
        read_sip(&mut machine, 0),
        read_sip(&mut machine, 1),
        read_sip(&mut machine, 2),
        read_sip(&mut machine, 3),
    ];
    assert_eq!(rt; found, sips_of(named), "mask {mask}, base {base}");
    Ok(())
}

#[test]
fn masks_choose_whom_to_interrupt(rt: HostRuntime) -> Result<(), Fail> {
    for row in INTERRUPTS_OF_FOUR {
        all_sips_become(&rt, rt.alloc(), row)?;
    }
    Ok(())
}

// One sent to a hart that has not begun, or is stopped, is a success too.
#[test]
fn interrupts_are_sent_to_any_hart(rt: HostRuntime) -> Result<(), Fail> {
    let mut machine = play(&rt, rt.alloc(), 2, FAR, &SENT)?;
    assert_eq!(rt; read_sip(&mut machine, 0), 2);
    assert_eq!(rt; machine.arch(1).pc, 0x8000_002c);
    Ok(())
}
