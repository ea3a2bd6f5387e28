// Files and a sink in memory, which fail at chosen calls.
ghost use Rattle.std.specs.Prelude.{◌≡◌, ℕ, ◌-◌, ◌<◌, ◌≤◌, List, Some, length, take, drop, min, position};
ghost use Rattle.vm_io.specs.Files.{is_named};

use crate::errors::Failed;
use crate::images::Images;
use crate::sink::Sink;

/// A file in memory.
#[derive(Drop)]
pub struct MemFile {
    pub name: String,
    pub bytes: Vec<u8>,
    /// How often a read of this file failed. The count stops at its last value.
    pub faults: u64,
}

/// Files in memory. A name means the first file that has it; a read of any other name fails.
#[derive(Drop)]
pub struct MemImages {
    files: Vec<MemFile>,
    // How often a read of a name without a file failed.
    missing: u64,
    failing: Vec<u64>,
    calls: u64,
}

impl MemImages {
    ghost use Rattle.vm_io.specs.Files.{bytes_of, count_of};

    /// Holds `files`, and fails at each call whose number, from 0, is in `failing`. All names are
    /// counted together, and the number of calls stops at its last value.
    pub fn new(files: Vec<MemFile>, failing: Vec<u64>) -> MemImages
        ensures told { (name : List ℕ) →
            ⟦<MemImages as Images>⟧.told result name ≡ bytes_of files.items name }
        ensures faults { (name : List ℕ) →
            ⟦<MemImages as Images>⟧.faults result name ≡ count_of files.items 0 name }
    {
        MemImages {
            files,
            missing: 0,
            failing,
            calls: 0,
        }
    }
}

impl Images for MemImages {
    ghost use Rattle.vm_io.specs.Files.{bytes_of, count_of};

    ghost told = { λ images. bytes_of images.files.items };

    ghost faults = { λ images. count_of images.files.items images.missing };

    fn read_at(&mut self, name: &str, from: u64, buf: &mut [u8]) -> Result<usize, Failed> {
        let fails = is_due(&self.failing, &mut self.calls);
        match place_of(&self.files, name) {
            Some(place) => {
                let file = &mut self.files[place];
                if fails {
                    file.faults = file.faults.saturating_add(1);
                    return Err(Failed);
                }
                Ok(copy_from(&file.bytes, from, buf))
            }
            None => {
                self.missing = self.missing.saturating_add(1);
                Err(Failed)
            }
        }
    }
}

/// A sink that keeps the bytes that it took.
#[derive(Drop)]
pub struct MemSink {
    bytes: Vec<u8>,
    failing: Vec<u64>,
    calls: u64,
    faults: u64,
}

impl MemSink {
    /// Goes on behind `bytes`, and fails at each call whose number, from 0, is in `failing`. The
    /// number of calls stops at its last value.
    pub fn new(bytes: Vec<u8>, failing: Vec<u64>) -> MemSink
        ensures taken { ⟦<MemSink as Sink>⟧.taken result ≡ Some bytes.items }
        ensures faults { ⟦<MemSink as Sink>⟧.faults result ≡ 0 }
    {
        MemSink {
            bytes,
            failing,
            calls: 0,
            faults: 0,
        }
    }

    /// The bytes that it began with and those that it took.
    pub fn bytes(&self) -> &[u8]
        ensures { ⟦<MemSink as Sink>⟧.taken self.now ≡ Some result.now }
    {
        &self.bytes
    }
}

impl Sink for MemSink {
    ghost taken = { λ sink. Some sink.bytes.items };

    ghost faults = { λ sink. sink.faults };

    fn write(&mut self, piece: &[u8]) -> Result<usize, Failed> {
        let fails = is_due(&self.failing, &mut self.calls);
        if fails || self.bytes.extend_from_slice(piece).is_err() {
            self.faults = self.faults.saturating_add(1);
            return Err(Failed);
        }
        Ok(piece.len())
    }
}

// Whether the call that now begins is to fail. It counts the call.
fn is_due(failing: &[u64], calls: &mut u64) -> bool {
    let due = failing.contains(calls);
    *calls = calls.saturating_add(1);
    due
}

// The place of the first file of this name.
fn place_of(files: &[MemFile], name: &str) -> Option<usize>
    ensures { result ≡ position (is_named name.now) files.now }
{
    files.iter().position(|file| file.name.as_str() == name)
}

// Copies the bytes from place `from` on, as many as there are and as `buf` has room for.
fn copy_from(bytes: &[u8], from: u64, buf: &mut [u8]) -> usize
    ensures count { result ≡ min (length buf.old) (length bytes.now - from) }
    ensures copied { take result buf.new ≡ take result (drop from bytes.now) }
{
    if from >= bytes.len() as u64 {
        return 0;
    }
    let rest = &bytes[from as usize..];
    let count = rest.len().min(buf.len());
    buf[..count].copy_from_slice(&rest[..count]);
    count
}
