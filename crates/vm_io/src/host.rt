// Files and output of the host. They tell no bytes: what a file or a terminal holds is trusted, and
// only the counts of faults are proved.
ghost use Rattle.std.specs.Prelude.{◌≡◌, ℕ, ◌≤◌, List, None, length, IfOk};

use crate::errors::Failed;
use crate::images::Images;
use crate::sink::Sink;
use std::fs::File;
use std::io;
use std::io::{Read, Seek, SeekFrom};
use std::rt::Files;

/// Files of the host, by path. One count of faults, which stops at its last value, serves all names.
#[derive(Drop)]
pub struct HostImages<R: Files> {
    rt: R,
    opened: Option<Opened<R::File>>,
    faults: u64,
}

// The file that was read last, and the place that its next byte has.
#[derive(Drop)]
struct Opened<F> {
    name: String,
    file: F,
    place: u64,
}

impl<R: Files + AllocGlobal> HostImages<R> {
    /// Reads through `rt`, which opens the files.
    pub fn new(rt: R) -> HostImages<R>
        ensures told { (name : List ℕ) → ⟦<HostImages<R> as Images>⟧.told result name ≡ None }
        ensures faults { (name : List ℕ) → ⟦<HostImages<R> as Images>⟧.faults result name ≡ 0 }
    {
        HostImages {
            rt,
            opened: None,
            faults: 0,
        }
    }

    // Reads on in the file that was read last where that goes on at this place, so that a pipe is
    // read in order and a file is opened once; else the file is opened anew.
    fn read_host(&mut self, name: &str, from: u64, buf: &mut [u8]) -> io::Result<usize>
        ensures fits { IfOk result (λ n. n ≤ length buf.old) }
        ensures faults { self.new.faults ≡ self.old.faults }
    {
        let mut opened = match self.opened.take() {
            Some(last) if last.place == from && last.name.as_str() == name => last,
            _ => self.open_at(name, from)?,
        };
        let count = opened.file.read(buf)?;
        if let Some(place) = from.checked_add(count as u64) {
            opened.place = place;
            self.opened = Some(opened);
        }
        Ok(count)
    }

    fn open_at(&self, name: &str, from: u64) -> io::Result<Opened<R::File>> {
        let name = String::from_str(self.rt.alloc(), name)?;
        let mut file = File::open(&self.rt, name.as_str())?;
        if from > 0 {
            file.seek(SeekFrom::Start(from))?;
        }
        Ok(Opened {
            name,
            file,
            place: from,
        })
    }
}

impl<R: Files + AllocGlobal> Images for HostImages<R> {
    ghost told = { λ _ _. None };

    ghost faults = { λ images _. images.faults };

    fn read_at(&mut self, name: &str, from: u64, buf: &mut [u8]) -> Result<usize, Failed> {
        match self.read_host(name, from, buf) {
            Ok(count) => Ok(count),
            Err(_) => {
                self.faults = self.faults.saturating_add(1);
                Err(Failed)
            }
        }
    }
}

/// Output of the host, as standard output or error. Its count of faults stops at its last value.
#[derive(Drop)]
pub struct HostSink<W: io::Write> {
    writer: W,
    faults: u64,
}

impl<W: io::Write> HostSink<W> {
    /// Writes to `writer`, unbuffered.
    pub fn new(writer: W) -> HostSink<W>
        ensures taken { ⟦<HostSink<W> as Sink>⟧.taken result ≡ None }
        ensures faults { ⟦<HostSink<W> as Sink>⟧.faults result ≡ 0 }
    {
        HostSink { writer, faults: 0 }
    }
}

impl<W: io::Write> Sink for HostSink<W> {
    ghost taken = { λ _. None };

    ghost faults = { λ sink. sink.faults };

    // A write that takes nothing of a piece with bytes is a fault: it could go on forever.
    fn write(&mut self, piece: &[u8]) -> Result<usize, Failed> {
        match self.writer.write(piece) {
            Ok(count) if count > 0 || piece.is_empty() => Ok(count),
            _ => {
                self.faults = self.faults.saturating_add(1);
                Err(Failed)
            }
        }
    }
}
