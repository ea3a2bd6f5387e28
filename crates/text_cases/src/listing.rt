// Listings of whole files.
use crate::call::{NO_FAULTS, call, compare, elf};
use std::test::Fail;
use tlbvm::Status;

/// A word of each form of operands, and words without one, with the line that each is at its place: GNU as makes these
/// words of these lines, where it is given a target by its distance.
const FORMS: [(u32, &str); 37] = [
    (0x1234_52b7, "80000000: 123452b7 lui x5, 0x12345\n"),
    (0xffff_ff97, "80000004: ffffff97 auipc x31, 0xfffff\n"),
    (0x0010_00ef, "80000008: 001000ef jal x1, 0x80000808\n"),
    (0xff9f_f06f, "8000000c: ff9ff06f jal x0, 0x80000004\n"),
    (0xffc2_80e7, "80000010: ffc280e7 jalr x1, -4(x5)\n"),
    (0xfe20_88e3, "80000014: fe2088e3 beq x1, x2, 0x80000004\n"),
    (
        0x7fff_7fe3,
        "80000018: 7fff7fe3 bgeu x30, x31, 0x80001016\n",
    ),
    (0x8001_0083, "8000001c: 80010083 lb x1, -2048(x2)\n"),
    (0x7fff_3f83, "80000020: 7fff3f83 ld x31, 2047(x30)\n"),
    (0x0062_8023, "80000024: 00628023 sb x6, 0(x5)\n"),
    (0xfe81_3c23, "80000028: fe813c23 sd x8, -8(x2)\n"),
    (0x04f0_0313, "8000002c: 04f00313 addi x6, x0, 79\n"),
    (0xfff1_3093, "80000030: fff13093 sltiu x1, x2, -1\n"),
    (0x03f1_1093, "80000034: 03f11093 slli x1, x2, 63\n"),
    (0x41f2_519b, "80000038: 41f2519b sraiw x3, x4, 31\n"),
    (0x0031_00b3, "8000003c: 003100b3 add x1, x2, x3\n"),
    (0x41ff_0ebb, "80000040: 41ff0ebb subw x29, x30, x31\n"),
    (0x0273_22b3, "80000044: 027322b3 mulhsu x5, x6, x7\n"),
    (0x02a4_f43b, "80000048: 02a4f43b remuw x8, x9, x10\n"),
    (0x0ff0_000f, "8000004c: 0ff0000f fence\n"),
    (0x0330_000f, "80000050: 0330000f .word 0x0330000f\n"),
    (0x0000_100f, "80000054: 0000100f fence.i\n"),
    (0x0000_0073, "80000058: 00000073 ecall\n"),
    (0x0010_0073, "8000005c: 00100073 ebreak\n"),
    (0x1020_0073, "80000060: 10200073 sret\n"),
    (0x1050_0073, "80000064: 10500073 wfi\n"),
    (0x1220_8073, "80000068: 12208073 sfence.vma x1, x2\n"),
    (0x1802_9073, "8000006c: 18029073 csrrw x0, 0x180, x5\n"),
    (0xfff0_2ff3, "80000070: fff02ff3 csrrs x31, 0xfff, x0\n"),
    (0x100f_d0f3, "80000074: 100fd0f3 csrrwi x1, 0x100, 31\n"),
    (0x1003_22af, "80000078: 100322af lr.w x5, (x6)\n"),
    (0x1403_32af, "8000007c: 140332af lr.d.aq x5, (x6)\n"),
    (0x1a73_32af, "80000080: 1a7332af sc.d.rl x5, x7, (x6)\n"),
    (
        0x0621_b0af,
        "80000084: 0621b0af amoadd.d.aqrl x1, x2, (x3)\n",
    ),
    (0xe053_222f, "80000088: e053222f amomaxu.w x4, x5, (x6)\n"),
    (0x0000_0000, "8000008c: 00000000 .word 0x00000000\n"),
    (0xffff_ffff, "80000090: ffffffff .word 0xffffffff\n"),
];

#[test]
fn each_form_is_listed(rt: HostRuntime) -> Result<(), Fail> {
    let alloc = rt.alloc();
    let mut bytes = Vec::new(alloc);
    let mut text = Vec::new(alloc);
    for (word, line) in FORMS {
        bytes.extend_from_slice(&word.to_le_bytes())?;
        text.extend_from_slice(line.as_bytes())?;
    }
    let file = elf(alloc, &bytes)?;
    let ended = call(alloc, "dis elf", "elf", file, NO_FAULTS)?;
    compare(&rt, &ended, Status::Done, &text, "forms");
    Ok(())
}

#[test]
fn rests_are_numbers(rt: HostRuntime) -> Result<(), Fail> {
    let alloc = rt.alloc();
    let rows: [(&[u8], &[u8]); 4] = [
        (b"\x07", b"80000000: .byte 7\n"),
        (b"\xff\x00", b"80000000: .byte 255, 0\n"),
        (
            b"\x73\x00\x00\x00\x01\x80\xff",
            b"80000000: 00000073 ecall\n80000004: .byte 1, 128, 255\n",
        ),
        (
            b"\x73\x00\x00\x00\x73\x00\x50\x10",
            b"80000000: 00000073 ecall\n80000004: 10500073 wfi\n",
        ),
    ];
    for (bytes, text) in rows {
        let ended = call(alloc, "dis elf", "elf", elf(alloc, bytes)?, NO_FAULTS)?;
        compare(&rt, &ended, Status::Done, text, "a rest");
    }
    Ok(())
}

// The segment's second half is zeros that the file doesn't hold, and lies in the last of the most pages.
#[test]
fn zeros_are_not_listed(rt: HostRuntime) -> Result<(), Fail> {
    let alloc = rt.alloc();
    let mut file = elf(alloc, b"\x73\x00\x00\x00")?;
    for (place, byte) in [(82, 0xff), (90, 0xff), (105, 0x01), (26, 0xff)] {
        if let Some(old) = file.get_mut(place) {
            *old = byte;
        }
    }
    let ended = call(alloc, "dis elf", "elf", file, NO_FAULTS)?;
    compare(
        &rt,
        &ended,
        Status::Done,
        b"80ff0000: 00000073 ecall\n",
        "zeros",
    );
    Ok(())
}
