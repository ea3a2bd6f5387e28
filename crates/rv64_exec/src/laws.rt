// A law that ties what an instruction needs to what it leaves: the function's contract is the law.
ghost use Rattle.rv64_exec.specs.Regimes.{RegimeStays};

/// Unless an instruction needs a full flush, satp and the fields SUM and MXR of sstatus stay as they are.
pub fn law_regime()
    ensures { RegimeStays }
{}
