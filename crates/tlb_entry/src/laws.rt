// A law of entries: the function's contract is the law.
ghost use Rattle.tlb_entry.specs.Filled.{EntryWords};

/// The word that an entry has for a kind of access hits at the addresses of its page and in its mode, where the leaf serves that kind, and
/// nowhere else. Its bits say what the page is.
pub fn law_entry_words()
    ensures { EntryWords }
{}
