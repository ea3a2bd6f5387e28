// What a hart knows of its own table beside the words, and what a probe finds there.
ghost use Rattle.std.specs.Prelude.{◌≡◌, [], false};
ghost use Rattle.tlb_entry.specs.Books.{GoesWith};
ghost use Rattle.tlb_entry.specs.Compare.{is_for_device, is_not_dirty};

/// A hart's own table: how many main slots it has, how many of them were filled since the last full flush, and whether a leaf of 2 MiB or
/// 1 GiB was.
#[derive(Clone, Copy, Debug, PartialEq, Eq)]
pub struct Book {
    pub hart: u8,
    pub size: u16,
    pub used: u16,
    pub large: bool,
}

impl Book {
    /// The book of a hart that has made no step.
    pub fn new(hart: u8) -> Book
        ensures goes { GoesWith result hart [] }
        ensures large { result.large ≡ false }
    {
        Book {
            hart,
            size: 64,
            used: 0,
            large: false,
        }
    }
}

/// An entry that was found: its slot, the address of its physical page, whether that page isn't known to be dirty, and whether it is a
/// device's.
#[derive(Clone, Copy, Debug, PartialEq, Eq)]
pub struct Hit {
    pub slot: u16,
    pub page: u64,
    pub not_dirty: bool,
    pub device: bool,
}

impl Hit {
    /// What a compare word that hits says, and its slot's page.
    #[inline]
    pub fn new(slot: u16, compare: u64, page: u64) -> Hit
        ensures slot { result.slot ≡ slot }
        ensures page { result.page ≡ page }
        ensures not_dirty { result.not_dirty ≡ is_not_dirty compare }
        ensures device { result.device ≡ is_for_device compare }
    {
        Hit {
            slot,
            page,
            not_dirty: compare / 2 % 2 == 1,
            device: compare / 4 % 2 == 1,
        }
    }
}
