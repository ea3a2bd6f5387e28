// Whole calls on files in memory, whose reads and writes fail at chosen calls.
use std::alloc::{AllocError, Global};
use std::process::Abort;
use tlbvm::{Status, tlbvm_still};
use vm_io::{MemFile, MemImages, MemSink};

/// The calls of each edge that fail, by their numbers from 0.
#[derive(Clone, Copy)]
pub(crate) struct Faults {
    pub read: Option<u64>,
    pub out: Option<u64>,
}

pub(crate) const NO_FAULTS: Faults = Faults {
    read: None,
    out: None,
};

/// What a call left behind.
#[derive(Drop)]
pub(crate) struct Ended {
    pub status: Status,
    pub out: MemSink,
    pub log: MemSink,
}

/// An executable whose one segment holds these bytes from the first of RAM on, where it starts.
/// Its fields stand as in the ELF-64 Object File Format, version 1.5, figures 2 and 6.
pub(crate) fn elf(alloc: Global, bytes: &[u8]) -> Result<Vec<u8>, AllocError> {
    let mut file = b"\x7fELF\x02\x01\x01\0\0\0\0\0\0\0\0\0\x02\0\xf3\0\x01\0\0\0".to_vec(alloc)?;
    for number in [0x8000_0000u64, 64, 0] {
        file.extend_from_slice(&number.to_le_bytes())?;
    }
    file.extend_from_slice(b"\0\0\0\0\x40\0\x38\0\x01\0\0\0\0\0\0\0\x01\0\0\0\x07\0\0\0")?;
    let len = bytes.len() as u64;
    for number in [120, 0x8000_0000u64, 0x8000_0000, len, len, 1] {
        file.extend_from_slice(&number.to_le_bytes())?;
    }
    file.extend_from_slice(bytes)?;
    Ok(file)
}

fn failing(alloc: Global, call: Option<u64>) -> Result<Vec<u64>, AllocError> {
    call.into_iter().collect(alloc)
}

/// A file of this name, which has no faults.
pub(crate) fn file(alloc: Global, name: &str, bytes: Vec<u8>) -> Result<MemFile, AllocError> {
    Ok(MemFile {
        name: String::from_str(alloc, name)?,
        bytes,
        faults: 0,
    })
}

/// Does a line, whose words stand apart by spaces, where the file of this name has these bytes.
pub(crate) fn call(
    alloc: Global,
    line: &str,
    name: &str,
    bytes: Vec<u8>,
    faults: Faults,
) -> Result<Ended, AllocError> {
    let files = vec![in alloc; file(alloc, name, bytes)?]?;
    call_on(alloc, line, files, faults)
}

/// Does a line on these files.
pub(crate) fn call_on(
    alloc: Global,
    line: &str,
    files: Vec<MemFile>,
    faults: Faults,
) -> Result<Ended, AllocError> {
    let mut words = Vec::new(alloc);
    for word in line.split_ascii_whitespace() {
        words.push(String::from_str(alloc, word)?)?;
    }
    let mut images = MemImages::new(files, failing(alloc, faults.read)?);
    let mut out = MemSink::new(Vec::new(alloc), failing(alloc, faults.out)?);
    let mut log = MemSink::new(Vec::new(alloc), Vec::new(alloc));
    let status = tlbvm_still(alloc, &words, &mut images, &mut out, &mut log);
    Ok(Ended { status, out, log })
}

/// Compares what a call ended with; `log` got nothing.
pub(crate) fn compare(rt: &impl Abort, ended: &Ended, status: Status, out: &[u8], what: &str) {
    assert_eq!(rt; ended.status, status, "status: {what}");
    assert_eq!(rt; ended.out.bytes(), out, "out: {what}");
    assert_eq!(rt; ended.log.bytes(), b"".as_slice(), "log: {what}");
}
