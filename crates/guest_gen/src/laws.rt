// Laws: each function's contract is its law.
ghost use Rattle.std.specs.Prelude.{ℕ, IsOk};
ghost use Rattle.rv_asm.specs.Assembly.{assembly_of};
ghost use Rattle.guest_gen.specs.Text.{gen_text};

/// The text of each number is one without a fault.
pub fn law_assembles()
    ensures { (number : ℕ) → IsOk (assembly_of (gen_text number)) }
{}
