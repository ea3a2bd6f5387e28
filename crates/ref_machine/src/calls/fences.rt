// The range of a remote fence (RISC-V SBI, "RFENCE Extension").
ghost use Rattle.std.specs.Prelude.{◌≡◌};
ghost use Rattle.std.specs.Option.{is_none};
ghost use Rattle.machine_model.specs.Sbi.{fence_range};

/// Whether a fence's range ends past the last address; one of size 0 or all ones never does.
pub(crate) fn is_past_end(start: u64, size: u64) -> bool
    ensures { result ≡ is_none (fence_range start size) }
{
    size != 0 && size != u64::MAX && size - 1 > u64::MAX - start
}
