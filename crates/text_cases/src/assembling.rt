// Files of assembler texts.
use crate::call::{Ended, Faults, NO_FAULTS, call, call_on, compare, file};
use std::alloc::{AllocError, Global};
use std::process::Abort;
use std::test::Fail;
use tlbvm::Status;

/// A guest that prints `OK` and a line feed, and ends with a pass.
const HELLO: &str = "
# The UART's first register prints a byte.
        li t0, 0x10000000
        la t1, text
more:   lbu t2, 0(t1)
        beq t2, zero, end
        sb t2, 0(t0)
        addi t1, t1, 1
        j more

# The finisher takes 0x5555 for a pass.
end:    li t0, 0x100000
        li t1, 0x5555
        sw t1, 0(t0)
text:   .byte 79, 75, 10, 0
";

/// Its listing; the words are those that GNU as makes of the same lines, with targets by their distance.
const LISTED: &str = "\
80000000: 100002b7 lui x5, 0x10000
80000004: 0002829b addiw x5, x5, 0
80000008: 00000317 auipc x6, 0x0
8000000c: 03030313 addi x6, x6, 48
80000010: 00034383 lbu x7, 0(x6)
80000014: 00038863 beq x7, x0, 0x80000024
80000018: 00728023 sb x7, 0(x5)
8000001c: 00130313 addi x6, x6, 1
80000020: ff1ff06f jal x0, 0x80000010
80000024: 001002b7 lui x5, 0x100
80000028: 0002829b addiw x5, x5, 0
8000002c: 00005337 lui x6, 0x5
80000030: 5553031b addiw x6, x6, 1365
80000034: 0062a023 sw x6, 0(x5)
80000038: 000a4b4f .word 0x000a4b4f
";

fn asm(alloc: Global, text: &str, faults: Faults) -> Result<Ended, AllocError> {
    call(alloc, "asm t", "t", text.as_bytes().to_vec(alloc)?, faults)
}

/// The file that a text without faults becomes.
fn made(rt: &impl Abort, alloc: Global, text: &str) -> Result<Vec<u8>, AllocError> {
    let ended = asm(alloc, text, NO_FAULTS)?;
    assert_eq!(rt; ended.status, Status::Done, "status: {text}");
    assert_eq!(rt; ended.log.bytes(), b"".as_slice(), "log: {text}");
    ended.out.bytes().to_vec(alloc)
}

#[test]
fn a_guest_is_made_listed_and_run(rt: HostRuntime) -> Result<(), Fail> {
    let alloc = rt.alloc();
    let elf = made(&rt, alloc, HELLO)?;
    let listed = call(alloc, "dis e", "e", elf, NO_FAULTS)?;
    compare(&rt, &listed, Status::Done, LISTED.as_bytes(), "dis");
    let mut files = vec![in alloc; file(alloc, "e", made(&rt, alloc, HELLO)?)?]?;
    files.push(file(alloc, "o", b"turn 0 40\n".to_vec(alloc)?)?)?;
    let ran = call_on(alloc, "plain e o", files, NO_FAULTS)?;
    assert_eq!(&rt; ran.status, Status::Done);
    assert_eq!(&rt; ran.out.bytes(), b"OK\n".as_slice());
    assert_eq!(&rt; ran.log.bytes(), b"end: pass\n".as_slice());
    Ok(())
}

// The fields of the ELF-64 Object File Format, version 1.5, figures 2 and 6, and of the RISC-V ELF psABI.
#[test]
fn a_file_has_its_headers(rt: HostRuntime) -> Result<(), Fail> {
    let alloc = rt.alloc();
    let headers: [u8; 120] = *b"\x7fELF\x02\x01\x01\0\0\0\0\0\0\0\0\0\x02\0\xf3\0\x01\0\0\0\
        \0\0\0\x80\0\0\0\0\x40\0\0\0\0\0\0\0\0\0\0\0\0\0\0\0\0\0\0\0\x40\0\x38\0\x01\0\0\0\0\0\0\0\
        \x01\0\0\0\x07\0\0\0\0\x10\0\0\0\0\0\0\0\0\0\x80\0\0\0\0\0\0\0\x80\0\0\0\0\
        \x07\0\0\0\0\0\0\0\x07\0\0\0\0\0\0\0\0\x10\0\0\0\0\0\0";
    let file = made(&rt, alloc, "wfi\r\n.byte 1, -1, 0x80")?;
    let bytes = file.as_slice();
    assert_eq!(&rt; bytes.get(..120), Some(headers.as_slice()));
    assert_eq!(&rt;
        bytes.get(4096..),
        Some(b"\x73\x00\x50\x10\x01\xff\x80".as_slice())
    );
    assert_eq!(&rt; bytes.get(120..4096), Some([0; 3976].as_slice()));
    Ok(())
}

#[test]
fn lines_are_read(rt: HostRuntime) -> Result<(), Fail> {
    let alloc = rt.alloc();
    for (line, name, status) in [
        ("asm t", "t", Status::Done),
        ("asm -- -t", "-t", Status::Done),
        ("asm -", "-", Status::Done),
        ("asm", "t", Status::Usage),
        ("asm a b", "a", Status::Usage),
        ("asm -t", "-t", Status::Usage),
        ("asm --harts 2 t", "t", Status::Usage),
        ("asm t --regs", "t", Status::Usage),
        ("asm other", "t", Status::ReadFault),
    ] {
        let ended = call(alloc, line, name, b"wfi\n".to_vec(alloc)?, NO_FAULTS)?;
        assert_eq!(&rt; ended.status, status, "{line}");
        let len = if status == Status::Done { 4100 } else { 0 };
        assert_eq!(&rt; ended.out.bytes().len(), len, "{line}");
        assert_eq!(&rt; ended.log.bytes(), b"".as_slice(), "{line}");
    }
    Ok(())
}

#[test]
fn bad_texts_give_no_file(rt: HostRuntime) -> Result<(), Fail> {
    let alloc = rt.alloc();
    for (text, line, kind) in [
        ("nop", 1, 1),
        ("wfi\nlw x1", 2, 2),
        ("\n\n.byte 255, -128, 256", 3, 3),
        ("j a\nj b", 1, 4),
        ("a: wfi\nb: wfi\na: wfi", 3, 5),
        (".org 0x80000010\n.org 0x80000008", 2, 6),
        ("a:\na: j b", 2, 4),
    ] {
        let ended = asm(alloc, text, NO_FAULTS)?;
        compare(&rt, &ended, Status::BadAsm(line, kind), b"", text);
    }
    Ok(())
}

// A text is read in two calls: the first gives its bytes, and the second none. A short file is one write.
#[test]
fn reads_and_writes_can_fail(rt: HostRuntime) -> Result<(), Fail> {
    let alloc = rt.alloc();
    for (read, out, status) in [
        (Some(0), None, Status::ReadFault),
        (Some(1), None, Status::ReadFault),
        (None, Some(0), Status::WriteFault),
    ] {
        let ended = asm(alloc, "wfi", Faults { read, out })?;
        compare(&rt, &ended, status, b"", "a fault");
    }
    Ok(())
}
