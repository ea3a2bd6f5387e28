// Every operation on a word of RAM, by a hart that is inside.
ghost use Rattle.std.specs.Prelude.{◌≡◌, ◌<◌, ◌*◌, ℕ};
ghost use Rattle.guest_ram.specs.Areas.{IsOfRam};
ghost use Rattle.guest_ram.specs.Ports.{layout_of, GoesBy};
ghost use Rattle.guest_ram_cases.specs.Operations.{HasStoredAll, HasCombinedAll, IsWriting};

use guest_ram::Port;
use step_laws::ram_word_at;

/// A store, a swap, an addition, an exchange and a load. Answers what was loaded.
pub fn store_all<P: Port>(port: &mut P, index: u32) -> u64
    requires writing { IsWriting (P.shows port.old) index }
    requires index { index < 512 * (layout_of (P.shows port.old)).pages }
    ensures steps { HasStoredAll (P.shows port.old) index result (P.shows port.new) }
    ensures writing { IsWriting (P.shows port.new) index }
    ensures goes { GoesBy 5 IsOfRam (P.shows port.old) (P.shows port.new) }
{
    let word = ram_word_at(index);
    port.store(word, 12);
    port.swap(word, 10);
    port.fetch_add(word, 5);
    port.compare_exchange(word, 15, 6);
    port.load(word)
}

/// And, or, exclusive or, minimum and maximum.
pub fn combine_all<P: Port>(port: &mut P, index: u32)
    requires writing { IsWriting (P.shows port.old) index }
    requires index { index < 512 * (layout_of (P.shows port.old)).pages }
    ensures steps { HasCombinedAll (P.shows port.old) index (P.shows port.new) }
    ensures writing { IsWriting (P.shows port.new) index }
    ensures goes { GoesBy 5 IsOfRam (P.shows port.old) (P.shows port.new) }
{
    let word = ram_word_at(index);
    port.fetch_and(word, 12);
    port.fetch_or(word, 3);
    port.fetch_xor(word, 15);
    port.fetch_min(word, 9);
    port.fetch_max(word, 11);
}
