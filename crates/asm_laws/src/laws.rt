// Laws: each function's contract is its law.
ghost use Rattle.asm_laws.specs.Texts.{ListsBack};

/// Listings are texts: the text of the listing of a file of one segment, at the first place of RAM, gives the segment's
/// bytes in the file.
pub fn law_lists()
    ensures { ListsBack }
{}
