// Why a machine ends, and the word that says so.
ghost use Rattle.std.specs.Prelude.{◌≡◌};
ghost use Rattle.machine_model.specs.ReasonWords as words;

/// Why a machine ends: the guest said that it passed or failed, a hart reached its limit of instructions, the
/// console is full, all harts are stopped, or the script said so.
#[derive(Clone, Copy, Debug, PartialEq, Eq)]
pub enum Reason {
    Pass,
    Fail(u16),
    Limit(u8),
    OutFull,
    AllStopped,
    Stopped,
}

/// What the machine's word STOP holds once it has ended for this reason.
pub fn reason_word(reason: Reason) -> u64
    ensures { result ≡ words.reason_word reason }
{
    match reason {
        Reason::Pass => 1,
        Reason::Fail(code) => 2 + 0x100 * u64::from(code),
        Reason::Limit(hart) => 3 + 0x100 * u64::from(hart),
        Reason::OutFull => 4,
        Reason::AllStopped => 5,
        Reason::Stopped => 6,
    }
}

/// The reason that such a word says; `None` where it says none, as 0.
pub fn reason_in(word: u64) -> Option<Reason>
    ensures { result ≡ words.reason_in word }
{
    let number = word / 0x100;
    match word {
        1 => Some(Reason::Pass),
        _ if word % 0x100 == 2 && number < 0x1_0000 => Some(Reason::Fail(number as u16)),
        _ if word % 0x100 == 3 && number < 0x100 => Some(Reason::Limit(number as u8)),
        4 => Some(Reason::OutFull),
        5 => Some(Reason::AllStopped),
        6 => Some(Reason::Stopped),
        _ => None,
    }
}
