// The text of the cases, a line at a time; each case is run where it ends.
use crate::bytes::first_word;
use crate::case::{Case, Entry};
use crate::compare::differences;
use anyhow::{Context, Result, bail};
use std::alloc::Global;

/// What lines that begin with a blank belong to.
#[derive(Clone, Copy)]
enum Open {
    Nothing,
    Part,
    Case,
}

/// What was read so far.
#[derive(Drop)]
pub(crate) struct Cases {
    alloc: Global,
    parts: Vec<Entry>,
    cases: Vec<Case>,
    open: Open,
    /// How many runs there were, and how many of them ended as wanted.
    pub run: u64,
    pub as_wanted: u64,
}

impl Cases {
    pub(crate) fn new(alloc: Global) -> Cases {
        Cases {
            alloc,
            parts: Vec::new(alloc),
            cases: Vec::new(alloc),
            open: Open::Nothing,
            run: 0,
            as_wanted: 0,
        }
    }

    /// Reads the next line of the text.
    pub(crate) fn read_line(&mut self, rt: &impl Print, line: &str) -> Result<()> {
        if line.is_empty() || line.starts_with('#') {
            return Ok(());
        }
        if line.starts_with(' ') {
            return self.push_text(line);
        }
        let (word, rest) = first_word(line);
        match word {
            "part" => self.begin_part(rt, rest),
            "case" => self.begin_case(rt, rest),
            _ => self.read_entry(word, rest),
        }
    }

    fn push_text(&mut self, line: &str) -> Result<()> {
        match self.open {
            Open::Nothing => bail!("a text of nothing: {line}"),
            Open::Part => self.parts.last_mut().context("no part")?.push_text(line)?,
            Open::Case => self.cases.last_mut().context("no case")?.push_text(line)?,
        }
        Ok(())
    }

    fn begin_part(&mut self, rt: &impl Print, name: &str) -> Result<()> {
        self.end(rt)?;
        self.parts.push(Entry::new(self.alloc, "part", name)?)?;
        self.open = Open::Part;
        Ok(())
    }

    fn begin_case(&mut self, rt: &impl Print, name: &str) -> Result<()> {
        self.end(rt)?;
        self.cases.push(Case::new(self.alloc, name)?)?;
        self.open = Open::Case;
        Ok(())
    }

    fn read_entry(&mut self, kind: &str, rest: &str) -> Result<()> {
        let Open::Case = self.open else {
            bail!("a line of no case: {kind} {rest}");
        };
        let entry = match kind {
            "like" => return self.take_over(rest),
            "with" => Entry::own_part(self.alloc, rest)?,
            _ => Entry::new(self.alloc, kind, rest)?,
        };
        self.cases.last_mut().context("no case")?.push(entry)?;
        Ok(())
    }

    /// The last case takes over what an earlier one says.
    fn take_over(&mut self, name: &str) -> Result<()> {
        let mut open = self.cases.pop().context("no case")?;
        let mut found = false;
        for case in &self.cases {
            if case.name.as_str() == name {
                open.take_over(case)?;
                found = true;
                break;
            }
        }
        self.cases.push(open)?;
        if !found {
            bail!("no case {name}");
        }
        Ok(())
    }

    /// Runs the case that is open, by each of its lines.
    pub(crate) fn end(&mut self, rt: &impl Print) -> Result<()> {
        let Open::Case = self.open else {
            return Ok(());
        };
        self.open = Open::Nothing;
        let case = self.cases.last().context("no case")?;
        let name = case.name.as_str();
        let line = case.first("line").context("no line")?.rest.as_str();
        let mut run = self.run.saturating_add(1);
        let mut as_wanted = self.as_wanted;
        if ends_as_wanted(rt, self.alloc, case, self.parts.as_slice(), line, name)? {
            as_wanted = as_wanted.saturating_add(1);
        }
        for entry in case.lines("by") {
            if entry.kind.as_str() == "by" {
                let other = entry.rest.as_str();
                let title = format!(in self.alloc; "{name}, by {other}")?;
                run = run.saturating_add(1);
                if ends_as_wanted(
                    rt,
                    self.alloc,
                    case,
                    self.parts.as_slice(),
                    other,
                    title.as_str(),
                )? {
                    as_wanted = as_wanted.saturating_add(1);
                }
            }
        }
        self.run = run;
        self.as_wanted = as_wanted;
        Ok(())
    }
}

/// Runs a case by a command line, and prints under a title that it ended as wanted, or what differs.
fn ends_as_wanted(
    rt: &impl Print,
    alloc: Global,
    case: &Case,
    parts: &[Entry],
    line: &str,
    title: &str,
) -> Result<bool> {
    let found = differences(alloc, case, parts, line).context(format_args!("{title}"))?;
    if found.is_empty() {
        println!(rt; "{title}: as wanted")?;
        return Ok(true);
    }
    for what in &found {
        println!(rt; "{title}: {what}")?;
    }
    Ok(false)
}
