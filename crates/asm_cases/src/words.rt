// Texts and the bytes of their images.
use crate::files::{IMAGE, gives, made};
use std::test::Fail;

/// Lines of one word, with the word that each gives: that of GNU as, but that it is given a target by its distance.
const WORDS: [(&str, u32); 40] = [
    ("lui x5, 0x12345", 0x1234_52b7),
    ("auipc x31, 0xfffff", 0xffff_ff97),
    ("lui t0, 1048575", 0xffff_f2b7),
    ("jal x1, 0x80000800", 0x0010_00ef),
    ("jalr x1, -4(x5)", 0xffc2_80e7),
    ("bgeu x30, x31, 0x80000ffe", 0x7fff_7fe3),
    ("beq x0, x0, 0x7ffff000", 0x8000_0063),
    ("j 0x800ffffe", 0x7fff_f06f),
    ("j 0x7ff00000", 0x8000_006f),
    ("lb x1, -2048(x2)", 0x8001_0083),
    ("ld x31, 2047(x30)", 0x7fff_3f83),
    ("sb x6, 0(x5)", 0x0062_8023),
    ("sd s0, -8(sp)", 0xfe81_3c23),
    ("addi x6, x0, 79", 0x04f0_0313),
    ("addi x1, x0, -0x80", 0xf800_0093),
    ("addi x1, x0, 00007", 0x0070_0093),
    ("sltiu x1, x2, -1", 0xfff1_3093),
    ("slli x1, x2, 63", 0x03f1_1093),
    ("sraiw x3, x4, 31", 0x41f2_519b),
    ("add x1, x2, x3", 0x0031_00b3),
    ("subw t4, t5, t6", 0x41ff_0ebb),
    ("mulhsu x5, x6, x7", 0x0273_22b3),
    ("remuw s0, s1, a0", 0x02a4_f43b),
    ("fence", 0x0ff0_000f),
    ("fence.i", 0x0000_100f),
    ("ecall", 0x0000_0073),
    ("ebreak", 0x0010_0073),
    ("sret", 0x1020_0073),
    ("wfi", 0x1050_0073),
    ("sfence.vma x1, x2", 0x1220_8073),
    ("csrrw zero, satp, t0", 0x1802_9073),
    ("csrrs x31, 4095, x0", 0xfff0_2ff3),
    ("csrrwi x1, 0x100, 31", 0x100f_d0f3),
    ("lr.w x5, (x6)", 0x1003_22af),
    ("lr.d.aq x5, (x6)", 0x1403_32af),
    ("sc.d.rl x5, x7, (x6)", 0x1a73_32af),
    ("amoadd.d.aqrl x1, x2, (x3)", 0x0621_b0af),
    ("amomaxu.w x4, x5, (x6)", 0xe053_222f),
    ("mv a0, a1", 0x0005_8513),
    (".byte 255, -128, 0, 1", 0x0100_80ff),
];

/// Lines of two words.
const PAIRS: [(&str, u32, u32); 6] = [
    ("li x5, 0x12345fff", 0x1234_62b7, 0xfff2_829b),
    ("li x5, -1", 0x0000_02b7, 0xfff2_829b),
    ("li t0, 2147483647", 0x8000_02b7, 0xfff2_829b),
    ("li t0, -2147483648", 0x8000_02b7, 0x0002_829b),
    (".word 0xffffffff, -2147483648", 0xffff_ffff, 0x8000_0000),
    (".dword -2", 0xffff_fffe, 0xffff_ffff),
];

#[test]
fn lines_give_their_words(rt: HostRuntime) -> Result<(), Fail> {
    let alloc = rt.alloc();
    for (line, word) in WORDS {
        gives(&rt, alloc, line, &word.to_le_bytes());
    }
    for (line, low, high) in PAIRS {
        let mut bytes = low.to_le_bytes().to_vec(alloc)?;
        bytes.extend_from_slice(&high.to_le_bytes())?;
        gives(&rt, alloc, line, bytes.as_slice());
    }
    Ok(())
}

#[test]
fn texts_give_their_images(rt: HostRuntime) {
    let alloc = rt.alloc();
    let rows: [(&str, &[u8]); 12] = [
        ("", b""),
        ("# nothing\n\n \t\n", b""),
        ("ecall\r\n# all\nwfi #", b"\x73\x00\x00\x00\x73\x00\x50\x10"),
        ("  a:\tadd  x1 ,x2,\tx3 ", b"\xb3\x00\x31\x00"),
        ("a: j a", b"\x6f\x00\x00\x00"),
        ("beq x1, x2, end\nend:", b"\x63\x82\x20\x00"),
        (".org 0x80000000\necall\n", b"\x73\x00\x00\x00"),
        (
            ".org 0x80000004\necall",
            b"\x00\x00\x00\x00\x73\x00\x00\x00",
        ),
        ("la x5, a\na:", b"\x97\x02\x00\x00\x93\x82\x82\x00"),
        (
            "a: .word 1\nla x5, a",
            b"\x01\x00\x00\x00\x97\x02\x00\x00\x93\x82\xc2\xff",
        ),
        (
            "_b1:\nli x1,0x800\nj _b1",
            b"\xb7\x10\x00\x00\x9b\x80\x00\x80\x6f\xf0\x9f\xff",
        ),
        (
            "a:\n.byte 1, 1\nb: .byte 2\n.org 0x80000004\njal x0, b\n",
            b"\x01\x01\x02\x00\x6f\xf0\xff\xff",
        ),
    ];
    for (text, image) in rows {
        gives(&rt, alloc, text, image);
    }
}

// `la` over a page forward: auipc 1, and 8 less by addi.
#[test]
fn an_address_over_a_page_ahead(rt: HostRuntime) {
    let alloc = rt.alloc();
    let text = "la x5, a\n.org 0x80001000\na: wfi";
    let file = made(&rt, alloc, text);
    let bytes = file.as_slice();
    assert_eq!(&rt; bytes.len(), IMAGE + 0x1004);
    assert_eq!(&rt;
        bytes.get(IMAGE..IMAGE + 8),
        Some(b"\x97\x12\x00\x00\x93\x82\x02\x00".as_slice())
    );
    assert_eq!(&rt;
        bytes.get(IMAGE + 0x1000..),
        Some(b"\x73\x00\x50\x10".as_slice())
    );
}
