// Files of texts.
use rv_asm::{AsmErr, assemble};
use std::alloc::Global;
use std::process::Abort;

/// Where a file's image begins.
pub(crate) const IMAGE: usize = 4096;

/// The file of a text without faults.
pub(crate) fn made(rt: &impl Abort, alloc: Global, text: &str) -> Vec<u8> {
    match assemble(alloc, text.as_bytes()) {
        Ok(file) => file,
        Err(error) => panic!(rt; "{text}: {error:?}"),
    }
}

/// The text gives this image.
pub(crate) fn gives(rt: &impl Abort, alloc: Global, text: &str, image: &[u8]) {
    let file = made(rt, alloc, text);
    assert_eq!(rt; file.as_slice().get(IMAGE..), Some(image), "{text}");
}

/// The text's first line with a fault is this, and its lowest fault is of this kind.
pub(crate) fn refuses(rt: &impl Abort, alloc: Global, text: &str, line: u64, kind: u8) {
    match assemble(alloc, text.as_bytes()) {
        Ok(_) => panic!(rt; "{text}: no fault"),
        Err(error) => assert_eq!(rt; error, AsmErr::Bad { line, kind }, "{text}"),
    }
}

// The fields of the ELF-64 Object File Format, version 1.5, figures 2 and 6, and of the RISC-V ELF psABI.
#[test]
fn a_file_of_one_segment(rt: HostRuntime) {
    let alloc = rt.alloc();
    let file = made(&rt, alloc, "lui t0, 0x10000\n");
    let headers: [u8; 120] = *b"\x7fELF\x02\x01\x01\0\0\0\0\0\0\0\0\0\x02\0\xf3\0\x01\0\0\0\
        \0\0\0\x80\0\0\0\0\x40\0\0\0\0\0\0\0\0\0\0\0\0\0\0\0\0\0\0\0\x40\0\x38\0\x01\0\0\0\0\0\0\0\
        \x01\0\0\0\x07\0\0\0\0\x10\0\0\0\0\0\0\0\0\0\x80\0\0\0\0\0\0\0\x80\0\0\0\0\
        \x04\0\0\0\0\0\0\0\x04\0\0\0\0\0\0\0\0\x10\0\0\0\0\0\0";
    let bytes = file.as_slice();
    assert_eq!(&rt; bytes.len(), 4100);
    assert_eq!(&rt; bytes.get(..120), Some(headers.as_slice()));
    assert_eq!(&rt; bytes.get(4096..), Some(b"\xb7\x02\x00\x10".as_slice()));
}
