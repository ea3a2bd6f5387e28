// Texts of guests by number.
use crate::call::{Faults, NO_FAULTS, call, call_on, compare, file};
use std::alloc::{AllocError, Global};
use std::process::Abort;
use std::test::Fail;
use tlbvm::Status;

/// The text of a number.
fn text_of(rt: &impl Abort, alloc: Global, line: &str) -> Result<Vec<u8>, AllocError> {
    let ended = call(alloc, line, "t", Vec::new(alloc), NO_FAULTS)?;
    assert_eq!(rt; ended.status, Status::Done, "status: {line}");
    assert_eq!(rt; ended.log.bytes(), b"".as_slice(), "log: {line}");
    ended.out.bytes().to_vec(alloc)
}

#[test]
fn a_text_has_its_lines(rt: HostRuntime) -> Result<(), Fail> {
    let alloc = rt.alloc();
    let text = text_of(&rt, alloc, "gen 7")?;
    let feeds = text
        .as_slice()
        .iter()
        .filter(|byte| **byte == b'\n')
        .count();
    assert_eq!(&rt; (text.len(), feeds), (3638, 244));
    let first: &[u8] = b"li s1, 1\nmore: li a7, 0x48534d\nli a6, 0\n";
    let last: &[u8] = b".org 0x8004f000\n.dword 5\n";
    assert!(&rt; text.as_slice().starts_with(first));
    assert!(&rt; text.as_slice().ends_with(last));
    Ok(())
}

#[test]
fn lines_are_read(rt: HostRuntime) -> Result<(), Fail> {
    let alloc = rt.alloc();
    for (line, status) in [
        ("gen 0", Status::Done),
        ("gen 007", Status::Done),
        ("gen -- 7", Status::Done),
        ("gen 4294967295", Status::Done),
        ("gen 4294967296", Status::Usage),
        ("gen -1", Status::Usage),
        ("gen 0x7", Status::Usage),
        ("gen", Status::Usage),
        ("gen 1 2", Status::Usage),
        ("gen --harts 2 1", Status::Usage),
        ("gen 1 --regs", Status::Usage),
    ] {
        let ended = call(alloc, line, "t", Vec::new(alloc), NO_FAULTS)?;
        assert_eq!(&rt; ended.status, status, "{line}");
        assert_eq!(&rt;
            ended.out.bytes().is_empty(),
            status != Status::Done,
            "{line}"
        );
    }
    Ok(())
}

#[test]
fn writes_can_fail(rt: HostRuntime) -> Result<(), Fail> {
    let alloc = rt.alloc();
    let faults = Faults {
        read: None,
        out: Some(0),
    };
    let ended = call(alloc, "gen 7", "t", Vec::new(alloc), faults)?;
    compare(&rt, &ended, Status::WriteFault, b"", "a fault");
    Ok(())
}

// The sum is the number of harts times 4 times that of rounds, which is 100 for the number 0.
#[test]
fn a_text_is_assembled_and_runs(rt: HostRuntime) -> Result<(), Fail> {
    let alloc = rt.alloc();
    let text = text_of(&rt, alloc, "gen 0")?;
    let made = call(alloc, "asm t", "t", text, NO_FAULTS)?;
    assert_eq!(&rt; made.status, Status::Done);
    let elf = made.out.bytes().to_vec(alloc)?;
    let mut files = vec![in alloc; file(alloc, "e", elf)?]?;
    files.push(file(alloc, "o", b"rounds 100000\n".to_vec(alloc)?)?)?;
    let ran = call_on(alloc, "plain e o --harts 2 --pages 256", files, NO_FAULTS)?;
    assert_eq!(&rt; ran.status, Status::Done);
    assert_eq!(&rt; ran.out.bytes(), b"0000000000000320\n".as_slice());
    Ok(())
}
