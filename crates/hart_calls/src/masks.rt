// The harts that a mask names (RISC-V SBI, "Hart list parameter").
ghost use Rattle.std.specs.Prelude.{◌≡◌, ◌+◌, ◌<◌, ◌≤◌, IfSome, SomeIff};
ghost use Rattle.machine_model.specs.Sbi.{named};
ghost use Rattle.hart_calls.specs.Asked.{AreHarts, bits_if_there};

use rv64_priv::is_set;

/// A mask's base that names every hart.
const ALL_HARTS: u64 = u64::MAX;

/// The hart that a bit of a mask names, where it is there; a sum that wraps names none.
fn hart_at(harts: u8, base: u64, bit: u32) -> Option<u64>
    ensures { SomeIff result (base + bit < harts) (base + bit) }
{
    let hart = base.checked_add(u64::from(bit))?;
    (hart < u64::from(harts)).then_some(hart)
}

/// The bits of the harts that a mask names, where all are there.
pub(crate) fn named_bits(harts: u8, mask: u64, base: u64) -> Option<u64>
    requires { harts ≤ 8 }
    ensures named { result ≡ bits_if_there harts (named harts mask base) }
    ensures there { IfSome result (λ bits. AreHarts harts bits) }
{
    if base == ALL_HARTS {
        return Some((1 << harts) - 1);
    }
    let mut bits = 0;
    for i in 0..64 {
        if is_set(mask, i) {
            let hart = hart_at(harts, base, i)?;
            bits |= 1 << hart;
        }
    }
    Some(bits)
}
