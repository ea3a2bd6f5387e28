// What was read so far of a command line.
ghost use Rattle.std.specs.Prelude.{◌≤◌};
ghost use Rattle.std.specs.Option.{ForSome};

use arrayvec::ArrayVec;

/// The words behind a command that were read: the operands, and each option at most once.
#[derive(Drop)]
pub(crate) struct Seen<'a> {
    pub operands: ArrayVec<&'a str, 3>,
    pub harts: Option<u8>,
    pub pages: Option<u32>,
    pub limit: Option<u64>,
    pub regs: bool,
    ghost harts_within: { ForSome harts (λ n. (1 ≤ n) × (n ≤ 8)) },
    ghost pages_within: { ForSome pages (λ n. (256 ≤ n) × (n ≤ 4096)) },
    ghost limit_within: { ForSome limit (λ n. (1 ≤ n) × (n ≤ 1000000000000)) },
}
