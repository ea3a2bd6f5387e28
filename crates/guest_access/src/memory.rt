// Steps on the word of RAM that has a physical address.
ghost use Rattle.step_laws.specs.declared.steps.WordOp.TheVariants.{Load, Store, Exchange};
ghost use Rattle.guest_access.specs.Stepping.{HasStepped, HasOperated, MayLoadAt, MayStoreAt};

use guest_ram::Port;
use rv64_exec::AmoOp;
use step_laws::ram_word;

/// Loads the word.
pub(crate) fn load_at<P: Port>(port: &mut P, pa: u64) -> u64
    requires { MayLoadAt pa (P.shows port.old) }
    ensures { HasStepped Load pa 0 result (P.shows port.old) (P.shows port.new) }
{
    port.load(ram_word(pa))
}

/// Stores the whole word.
pub(crate) fn store_at<P: Port>(port: &mut P, pa: u64, value: u64)
    requires { MayStoreAt pa (P.shows port.old) }
    ensures { HasStepped Store pa value 0 (P.shows port.old) (P.shows port.new) }
{
    port.store(ram_word(pa), value)
}

/// Exchanges the word for `new` where it holds `old`, and answers what it held.
pub(crate) fn exchange_at<P: Port>(port: &mut P, pa: u64, old: u64, new: u64) -> u64
    requires { MayStoreAt pa (P.shows port.old) }
    ensures { HasStepped (Exchange old) pa new result (P.shows port.old) (P.shows port.new) }
{
    port.compare_exchange(ram_word(pa), old, new)
}

/// Does an atomic operation on the whole word by one step, and answers what it held. `None`: no one step does this operation.
pub(crate) fn operate_at<P: Port>(port: &mut P, pa: u64, op: AmoOp, value: u64) -> Option<u64>
    requires { MayStoreAt pa (P.shows port.old) }
    ensures { HasOperated op pa value result (P.shows port.old) (P.shows port.new) }
{
    let word = ram_word(pa);
    match op {
        AmoOp::Swap => Some(port.swap(word, value)),
        AmoOp::Add => Some(port.fetch_add(word, value)),
        AmoOp::Xor => Some(port.fetch_xor(word, value)),
        AmoOp::And => Some(port.fetch_and(word, value)),
        AmoOp::Or => Some(port.fetch_or(word, value)),
        AmoOp::MinU => Some(port.fetch_min(word, value)),
        AmoOp::MaxU => Some(port.fetch_max(word, value)),
        AmoOp::Min | AmoOp::Max => None,
    }
}
