// What a remote fence names.

/// What a fence flushes: everything, or 1 to 512 virtual pages by the number of the first one.
#[derive(Clone, Copy, Debug, PartialEq, Eq)]
pub enum Span {
    All,
    Pages { page: u64, count: u16 },
}
