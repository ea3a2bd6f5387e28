// Texts with a fault: the first line that has one, and the lowest kind.
use crate::files::refuses;

const NO_NAME: u8 = 1;

const WRONG_FORM: u8 = 2;

const OUT_OF_RANGE: u8 = 3;

const NO_LABEL: u8 = 4;

const LABEL_TWICE: u8 = 5;

const OUT_OF_PLACE: u8 = 6;

#[test]
fn a_line_with_a_fault(rt: HostRuntime) {
    let alloc = rt.alloc();
    let rows: [(&str, u8); 40] = [
        ("nop", NO_NAME),
        ("ADDI x1, x0, 1", NO_NAME),
        ("a : wfi", NO_NAME),
        ("a: b: wfi", NO_NAME),
        ("1a: wfi", NO_NAME),
        (".half 1", NO_NAME),
        ("amoadd.d.rlaq x1, x2, (x3)", NO_NAME),
        ("add.aq x1, x2, x3", NO_NAME),
        ("addi :", WRONG_FORM),
        ("addi x1, x0", WRONG_FORM),
        ("addi x1, x0,", WRONG_FORM),
        ("addi x1, x0, 1, 2", WRONG_FORM),
        ("addi x1 x0, 1", WRONG_FORM),
        ("addi x1, x32, 1", WRONG_FORM),
        ("addi x01, x0, 1", WRONG_FORM),
        ("addi fp, x0, 1", WRONG_FORM),
        ("lw x1, 0 (x2)", WRONG_FORM),
        ("lw x1, (x2)", WRONG_FORM),
        ("lr.w x1, 0(x2)", WRONG_FORM),
        ("li x5, 0X10", WRONG_FORM),
        ("li x5, 0x", WRONG_FORM),
        ("li x5, +1", WRONG_FORM),
        ("la x5, 0x80000000", WRONG_FORM),
        ("wfi x0", WRONG_FORM),
        (".byte", WRONG_FORM),
        (".byte 1,", WRONG_FORM),
        ("csrrw x0, mstatus, t0", WRONG_FORM),
        ("addi t0, t0, 2048", OUT_OF_RANGE),
        ("addi t0, t0, -2049", OUT_OF_RANGE),
        ("lui x1, 0x100000", OUT_OF_RANGE),
        ("slliw x1, x1, 32", OUT_OF_RANGE),
        ("csrrw x0, 4096, t0", OUT_OF_RANGE),
        ("csrrwi x0, satp, 32", OUT_OF_RANGE),
        ("li t0, 2147483648", OUT_OF_RANGE),
        ("li t0, -2147483649", OUT_OF_RANGE),
        (".byte 255, -128, 256", OUT_OF_RANGE),
        (".dword 18446744073709551616", OUT_OF_RANGE),
        ("j b", NO_LABEL),
        (".org 0x7fffffff", OUT_OF_PLACE),
        (".org 0x81000001", OUT_OF_PLACE),
    ];
    for (text, kind) in rows {
        refuses(&rt, alloc, text, 1, kind);
    }
}

#[test]
fn a_target_out_of_reach(rt: HostRuntime) {
    let alloc = rt.alloc();
    for text in [
        "j 0x80000001",
        "j 0x80100000",
        "j 0x7feffffe",
        "j -2",
        "beq x0, x0, 0x80001000",
        "beq x0, x0, 0x7fffeffe",
    ] {
        refuses(&rt, alloc, text, 1, OUT_OF_RANGE);
    }
}

#[test]
fn the_first_line_and_its_lowest_kind(rt: HostRuntime) {
    let alloc = rt.alloc();
    let rows: [(&str, u64, u8); 7] = [
        ("a:\na:", 2, LABEL_TWICE),
        ("a:\nb:\na:\nb: none", 3, LABEL_TWICE),
        ("a:\na: j b", 2, NO_LABEL),
        ("a:\na: none", 2, NO_NAME),
        ("wfi\nli\nnone", 2, WRONG_FORM),
        ("\n# first\n\n.org 0x81000000\nwfi", 5, OUT_OF_PLACE),
        (".org 0x81000000\nj b", 2, NO_LABEL),
    ];
    for (text, line, kind) in rows {
        refuses(&rt, alloc, text, line, kind);
    }
}
