// What a remote fence names, and the pieces in which it is sent.
ghost use Rattle.std.specs.Prelude.{◌≡◌, ◌<◌, ◌≤◌};
ghost use Rattle.step_laws.specs.Fields.{IsRequest};
ghost use Rattle.hart_calls.specs.Spans.{IsSpan};
ghost use Rattle.sbi_calls.specs.Spans.{is_named, piece_of, pieces_of};

use hart_calls::Span;
use step_laws::Request;

/// How far a fence has come: of each hart, how many of its pieces were posted there, and how many are acked; of the own hart, how many are
/// flushed, among the acked ones.
#[derive(Clone, Copy, Debug, PartialEq, Eq)]
pub struct Fence {
    pub posted: [u8; 16],
    pub acked: [u8; 16],
}

/// In how many pieces of 64 pages at most the span is sent.
pub(crate) fn pieces(span: &Span) -> u8
    requires { IsSpan span.now }
    ensures count { result ≡ pieces_of span.now }
    ensures some { 1 ≤ result }
    ensures few { result ≤ 8 }
{
    match *span {
        Span::All => 1,
        Span::Pages { count, .. } => ((count + 63) / 64) as u8,
    }
}

/// The piece with this number, from 0.
pub(crate) fn piece(span: &Span, number: u8) -> Request
    requires span { IsSpan span.now }
    requires number { number < pieces_of span.now }
    ensures piece { result ≡ piece_of span.now number }
    ensures request { IsRequest result }
{
    match *span {
        Span::All => Request::FlushAll,
        Span::Pages { page, count } => {
            let first = 64 * u16::from(number);
            Request::FlushPages {
                page: page + u64::from(first),
                count: (count - first).min(64),
            }
        }
    }
}

/// Whether the mask names the hart.
pub(crate) fn names(harts: u64, hart: u8) -> bool
    requires { hart < 64 }
    ensures { result ≡ is_named harts hart }
{
    (harts >> hart) % 2 == 1
}
