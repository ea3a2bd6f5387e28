// What can be wrong with a line.

/// A fault of a line. Of several a line has the first of this list.
#[derive(Clone, Copy, Debug, PartialEq, Eq)]
pub enum Fault {
    /// No mnemonic or directive has this name.
    NoName,
    /// The operands have not the form of the name.
    WrongForm,
    /// A number out of range; a branch or jump out of reach, or over an odd distance.
    OutOfRange,
    /// A label that no line sets.
    NoLabel,
    /// A label that a line before sets.
    LabelTwice,
    /// `.org` backward, or an image over the limit.
    OutOfPlace,
}
