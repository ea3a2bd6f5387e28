// What a case says, line by line.
use crate::bytes::first_word;
use std::alloc::{AllocError, Global};

/// A line by its kind, what stands behind that, and the text beneath.
#[derive(Drop)]
pub(crate) struct Entry {
    pub kind: String,
    pub rest: String,
    pub text: String,
}

impl Entry {
    /// Of a line's first word, and of what stands behind it.
    pub(crate) fn new(alloc: Global, kind: &str, rest: &str) -> Result<Entry, AllocError> {
        Ok(Entry {
            kind: String::from_str(alloc, kind)?,
            rest: String::from_str(alloc, rest)?,
            text: String::new(alloc),
        })
    }

    /// A part of a case's own. The name stands in its kind, so that each name is a kind of its own.
    pub(crate) fn own_part(alloc: Global, said: &str) -> Result<Entry, AllocError> {
        let (name, line) = first_word(said);
        let mut entry = Entry::new(alloc, "with ", "")?;
        entry.kind.push_str(name)?;
        entry.push_text(line)?;
        Ok(entry)
    }

    /// Appends a line to the text.
    pub(crate) fn push_text(&mut self, line: &str) -> Result<(), AllocError> {
        self.text.push_str(line)?;
        self.text.push('\n')
    }

    fn copied(&self) -> Result<Entry, AllocError> {
        Ok(Entry {
            kind: self.kind.clone()?,
            rest: self.rest.clone()?,
            text: self.text.clone()?,
        })
    }
}

/// A case's own lines, and those that it takes over.
#[derive(Drop)]
pub(crate) struct Case {
    pub name: String,
    own: Vec<Entry>,
    taken: Vec<Entry>,
}

fn says(entries: &[Entry], kind: &str) -> bool {
    for entry in entries {
        if entry.kind.as_str() == kind {
            return true;
        }
    }
    false
}

impl Case {
    pub(crate) fn new(alloc: Global, name: &str) -> Result<Case, AllocError> {
        Ok(Case {
            name: String::from_str(alloc, name)?,
            own: Vec::new(alloc),
            taken: Vec::new(alloc),
        })
    }

    /// Takes over what another case says.
    pub(crate) fn take_over(&mut self, other: &Case) -> Result<(), AllocError> {
        for entry in &other.own {
            self.taken.push(entry.copied()?)?;
        }
        for entry in &other.taken {
            if !says(other.own.as_slice(), entry.kind.as_str()) {
                self.taken.push(entry.copied()?)?;
            }
        }
        Ok(())
    }

    pub(crate) fn push(&mut self, entry: Entry) -> Result<(), AllocError> {
        self.own.push(entry)?;
        Ok(())
    }

    /// Appends a line to the text of the last line.
    pub(crate) fn push_text(&mut self, line: &str) -> Result<(), AllocError> {
        match self.own.last_mut() {
            Some(entry) => entry.push_text(line),
            None => Ok(()),
        }
    }

    /// The lines of which those of a kind are the case's: its own, where it has one of the kind.
    pub(crate) fn lines(&self, kind: &str) -> &[Entry] {
        if says(self.own.as_slice(), kind) {
            self.own.as_slice()
        } else {
            self.taken.as_slice()
        }
    }

    /// The first line of a kind.
    pub(crate) fn first(&self, kind: &str) -> Option<&Entry> {
        for entry in self.lines(kind) {
            if entry.kind.as_str() == kind {
                return Some(entry);
            }
        }
        None
    }
}
