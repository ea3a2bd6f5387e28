// Lines and files that are refused, and reads and writes that fail.
use crate::call::{Faults, NO_FAULTS, call, compare, elf};
use std::test::Fail;
use tlbvm::{BadImage, Status};

const ECALL: &[u8] = b"\x73\x00\x00\x00";

const LISTED: &[u8] = b"80000000: 00000073 ecall\n";

#[test]
fn lines_are_read(rt: HostRuntime) -> Result<(), Fail> {
    let alloc = rt.alloc();
    for (line, name, status) in [
        ("dis elf", "elf", Status::Done),
        ("dis -- -e", "-e", Status::Done),
        ("dis -- --harts", "--harts", Status::Done),
        ("dis e --", "e", Status::Done),
        ("dis -", "-", Status::Done),
        ("dis", "elf", Status::Usage),
        ("dis --", "elf", Status::Usage),
        ("dis a b", "a", Status::Usage),
        ("dis -e", "-e", Status::Usage),
        ("dis --harts 2 elf", "elf", Status::Usage),
        ("dis elf --pages=256", "elf", Status::Usage),
        ("dis elf --limit 5", "elf", Status::Usage),
        ("dis elf --regs", "elf", Status::Usage),
        ("dis other", "elf", Status::ReadFault),
    ] {
        let ended = call(alloc, line, name, elf(alloc, ECALL)?, NO_FAULTS)?;
        let out = if status == Status::Done { LISTED } else { b"" };
        compare(&rt, &ended, status, out, line);
    }
    Ok(())
}

#[test]
fn bad_images_are_not_listed(rt: HostRuntime) -> Result<(), Fail> {
    let alloc = rt.alloc();
    for (place, byte, kind) in [
        (0, 0, BadImage::NotElf),
        (18, 0, BadImage::NotRv64),
        (16, 3, BadImage::NotExec),
        (48, 1, BadImage::Compressed),
        (96, 200, BadImage::Short),
        (91, 1, BadImage::SegmentOutside),
        (24, 1, BadImage::EntryOutside),
    ] {
        let mut file = elf(alloc, ECALL)?;
        if let Some(old) = file.get_mut(place) {
            *old = byte;
        }
        let ended = call(alloc, "dis elf", "elf", file, NO_FAULTS)?;
        compare(&rt, &ended, Status::BadImage(kind), b"", "an image");
    }
    Ok(())
}

// A file is read in two calls: the first gives its bytes, and the second none. A short listing is one write.
#[test]
fn reads_and_writes_can_fail(rt: HostRuntime) -> Result<(), Fail> {
    let alloc = rt.alloc();
    for (read, out, status) in [
        (Some(0), None, Status::ReadFault),
        (Some(1), None, Status::ReadFault),
        (None, Some(0), Status::WriteFault),
    ] {
        let faults = Faults { read, out };
        let ended = call(alloc, "dis elf", "elf", elf(alloc, ECALL)?, faults)?;
        compare(&rt, &ended, status, b"", "a fault");
    }
    Ok(())
}
