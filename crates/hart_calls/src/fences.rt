// The range of a remote fence (RISC-V SBI, "RFENCE Extension").
ghost use Rattle.std.specs.Prelude.{◌≡◌, IfSome};
ghost use Rattle.std.specs.Option.{option_map};
ghost use Rattle.machine_model.specs.Sbi.{fence_range};
ghost use Rattle.hart_calls.specs.Spans.{IsSpan, flush_of};

use crate::spans::Span;
use step_laws::PAGE_BYTES;

/// The most pages that a fence names one by one.
const MOST_PAGES: u64 = 512;

/// The pages that a range touches, where it ends at the last address or before; one of size 0 is of one page, or of all from address 0, and
/// one of all ones is of all. `None`: it ends past the last address.
pub(crate) fn span_of(start: u64, size: u64) -> Option<Span>
    ensures span { option_map flush_of result ≡ fence_range start size }
    ensures sound { IfSome result (λ span. IsSpan span) }
{
    if (start == 0 && size == 0) || size == u64::MAX {
        return Some(Span::All);
    }
    let page = start / PAGE_BYTES;
    if size == 0 {
        return Some(Span::Pages { page, count: 1 });
    }
    let last = start.checked_add(size - 1)?;
    let more = last / PAGE_BYTES - page;
    if more >= MOST_PAGES {
        return Some(Span::All);
    }
    Some(Span::Pages {
        page,
        count: more as u16 + 1,
    })
}
