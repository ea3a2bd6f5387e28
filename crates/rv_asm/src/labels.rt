// Labels and their places.
ghost use Rattle.std.specs.Prelude.{◌≡◌, ◌++◌, ◌∷◌, [], IfOk, List, Some};
ghost use Rattle.rv_asm.specs.Assembly.{Set, is_set, place_of, set_by};
ghost use Rattle.rv_asm.specs.Found.{AreLabels};

use std::alloc::Global;
use std::collections::BTreeMap;
use vm_io::NoMemory;

/// The place of each label, by the first line that sets it.
#[derive(Drop)]
pub(crate) struct Labels<'a> {
    places: BTreeMap<&'a [u8], u64>,
}

impl<'a> Labels<'a> {
    pub(crate) fn new(alloc: Global) -> Labels<'a>
        ensures { AreLabels [] result.places }
    {
        Labels {
            places: BTreeMap::new(alloc),
        }
    }

    /// Where a label is set.
    pub(crate) fn place_of(&self, name: &[u8]) -> Option<u64>
        ensures { (sets : List Set) → AreLabels sets self.now.places → result ≡ place_of sets name.now }
    {
        self.places.get(name).copied()
    }

    /// Sets a label at a place, where it wasn't set before. Answers whether it was.
    pub(crate) fn add(&mut self, name: &'a [u8], place: u64) -> Result<bool, NoMemory>
        ensures { IfOk result (λ twice. (sets : List Set) → AreLabels sets self.old.places → AreLabels (sets ++ set_by place (Some name.entry.now)) self.new.places × (twice ≡ is_set sets (Some name.entry.now))) }
    {
        if self.places.get(name).is_some() {
            return Ok(true);
        }
        self.places.insert(name, place)?;
        Ok(false)
    }
}
