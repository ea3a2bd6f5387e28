// Reads and writes that fail at each call in turn, files at the limit of length, and one pass over
// real files. Lengths and counts of calls follow from pieces of 65,536 bytes.
use crate::{
    HostImages, HostSink, MemFile, MemImages, MemSink, ReadErr, WriteFault, read_all, write_all,
};
use std::alloc::{AllocError, Global};
use std::test::Fail;
use std::{env, fs, process};

// Two whole pieces and a part of a third.
const LEN: u32 = 150_000;

fn pattern(alloc: Global) -> Result<Vec<u8>, AllocError> {
    (0..LEN).map(|i| (i % 251) as u8).collect(alloc)
}

fn mem_file(alloc: Global, name: &str, bytes: Vec<u8>) -> Result<MemFile, AllocError> {
    let name = String::from_str(alloc, name)?;
    Ok(MemFile {
        name,
        bytes,
        faults: 0,
    })
}

fn one_file(alloc: Global, bytes: Vec<u8>, failing: u64) -> Result<MemImages, AllocError> {
    let files = vec![in alloc; mem_file(alloc, "image", bytes)?]?;
    Ok(MemImages::new(files, vec![in alloc; failing]?))
}

fn zeros(alloc: Global, count: usize) -> Result<Vec<u8>, AllocError> {
    vec![in alloc; 0u8; count]
}

// Three reads give bytes, and a fourth says that the file ends there.
#[test]
fn each_read_can_fail(rt: HostRuntime) -> Result<(), Fail> {
    let alloc = rt.alloc();
    for failing in 0..4 {
        let mut images = one_file(alloc, pattern(alloc)?, failing)?;
        let read = read_all(alloc, &mut images, "image");
        assert_eq!(rt; read.err(), Some(ReadErr::ReadFault), "read {failing}");
        assert_eq!(rt; read_all(alloc, &mut images, "image")?, pattern(alloc)?);
    }
    let mut images = one_file(alloc, pattern(alloc)?, 4)?;
    assert_eq!(rt; read_all(alloc, &mut images, "image")?, pattern(alloc)?);
    Ok(())
}

#[test]
fn each_write_can_fail(rt: HostRuntime) -> Result<(), Fail> {
    let alloc = rt.alloc();
    let bytes = pattern(alloc)?;
    for (failing, written) in [(0, 0), (1, 65_536), (2, 131_072)] {
        let mut sink = MemSink::new(Vec::new(alloc), vec![in alloc; failing]?);
        let fault = Err(WriteFault { written });
        assert_eq!(rt; write_all(&mut sink, &bytes), fault, "write {failing}");
        assert_eq!(rt; sink.bytes(), &bytes[..written]);
    }
    let mut sink = MemSink::new(Vec::new(alloc), vec![in alloc; 3]?);
    assert_eq!(rt; write_all(&mut sink, &bytes), Ok(()));
    assert_eq!(rt; sink.bytes(), bytes.as_slice());
    Ok(())
}

#[test]
fn length_is_limited(rt: HostRuntime) -> Result<(), Fail> {
    let alloc = rt.alloc();
    for len in [0, 67_108_864] {
        let mut images = one_file(alloc, zeros(alloc, len)?, u64::MAX)?;
        assert_eq!(rt; read_all(alloc, &mut images, "image")?.len(), len);
    }
    let mut images = one_file(alloc, zeros(alloc, 67_108_865)?, u64::MAX)?;
    let read = read_all(alloc, &mut images, "image");
    assert_eq!(rt; read.err(), Some(ReadErr::TooLong));
    Ok(())
}

#[test]
fn first_file_of_a_name_is_meant(rt: HostRuntime) -> Result<(), Fail> {
    let alloc = rt.alloc();
    let mut files = Vec::new(alloc);
    for (name, byte) in [("order", 1u8), ("image", 2), ("image", 3)] {
        files.push(mem_file(alloc, name, vec![in alloc; byte]?)?)?;
    }
    let mut images = MemImages::new(files, Vec::new(alloc));
    assert_eq!(rt;
        read_all(alloc, &mut images, "image")?.as_slice(),
        [2].as_slice()
    );
    let missing = read_all(alloc, &mut images, "script");
    assert_eq!(rt; missing.err(), Some(ReadErr::ReadFault));
    Ok(())
}

#[test]
fn files_of_the_host(rt: HostRuntime) -> Result<(), Fail> {
    let alloc = rt.alloc();
    let id = process::id(rt.process());
    let folder = env::temp_dir(&rt)?;
    let path = folder.join(alloc, format!(in alloc; "vm_io-{id}")?)?;
    let name = path.as_path().to_str().ok_or("a path that is no text")?;
    let bytes = pattern(alloc)?;

    let mut sink = HostSink::new(fs::create(&rt, name)?);
    assert_eq!(rt; write_all(&mut sink, &bytes), Ok(()));
    let mut images = HostImages::new(&rt);
    let read = read_all(alloc, &mut images, name);
    fs::remove_file(&rt, name)?;
    assert_eq!(rt; read?, bytes);
    let missing = read_all(alloc, &mut images, name);
    assert_eq!(rt; missing.err(), Some(ReadErr::ReadFault));
    Ok(())
}

#[test]
fn writer_that_is_full_is_a_fault(rt: HostRuntime) {
    let mut room = [0u8; 5];
    let mut sink = HostSink::new(room.as_mut_slice());
    let fault = Err(WriteFault { written: 5 });
    assert_eq!(rt; write_all(&mut sink, b"too long"), fault);
    assert_eq!(rt; room, *b"too l");
}
