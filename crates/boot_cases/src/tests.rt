// A file of ten segments, loaded into a machine of three harts. What the words hold is written from the segments' bytes, by hand.
ghost use Rattle.std.specs.Prelude.{◌≡◌, IfOk, length};
ghost use Rattle.step_laws.specs.Layout.{IsInLimits};
ghost use Rattle.step_laws.specs.Steps.{words_of};
ghost use Rattle.guest_ram.specs.Shown.{all_words};

use case_guests::{HELLO, with_map};
use elf_load::parse;
use guest_boot::boot;
use guest_ram::{Words, close, open_machine};
use std::alloc::Global;
use std::process::Abort;
use std::test::Fail;
use step_laws::{
    Layout, TlbField, cons_word, dirty_word, hsm_word, ipi_word, live_word, ram_word_at, size_word,
    tlb_word,
};

const LAYOUT: Layout = Layout {
    harts: 3,
    pages: 1024,
};

/// How many words its RAM has.
const WORDS: u32 = 512 * 1024;

/// The words of a machine that has loaded a file, before its harts begin.
fn loaded(alloc: Global, layout: Layout, file: &[u8]) -> Result<Words, Fail>
    requires limits { IsInLimits layout }
    ensures count { IfOk result (λ words. length (all_words words) ≡ words_of layout) }
{
    let image = parse(alloc, file, layout.pages)?;
    let (table, seat) = open_machine(alloc, layout)?;
    let mut pass = seat.pass(&table);
    boot(&mut pass, &image, file);
    let seat = pass.rest();
    Ok(close(table, seat))
}

#[test]
fn harts_begin(rt: HostRuntime) -> Result<(), Fail> {
    let alloc = rt.alloc();
    let file = with_map(alloc, &HELLO, &[])?;
    let words = loaded(alloc, LAYOUT, &file)?;
    // hart 0 runs, and the others are stopped
    assert_eq!(rt; words.get(live_word()), 1);
    assert_eq!(rt; words.get(hsm_word(0)), 0);
    assert_eq!(rt; words.get(hsm_word(1)), 1);
    assert_eq!(rt; words.get(hsm_word(2)), 1);
    // each has an empty TLB of 64 slots and 8 victims
    assert_eq!(rt; words.get(size_word(2)), 64);
    assert_eq!(rt; words.get(tlb_word(2, 0, TlbField::Read)), 1);
    assert_eq!(rt; words.get(tlb_word(2, 63, TlbField::Write)), 1);
    assert_eq!(rt; words.get(tlb_word(2, 64, TlbField::Read)), 0);
    assert_eq!(rt; words.get(tlb_word(2, 1031, TlbField::Code)), 1);
    assert_eq!(rt; words.get(tlb_word(2, 0, TlbField::Page)), 0);
    // a hart that the machine doesn't have
    assert_eq!(rt; words.get(hsm_word(3)), 0);
    assert_eq!(rt; words.get(size_word(3)), 0);
    assert_eq!(rt; words.get(cons_word()), 0);
    assert_eq!(rt; words.get(ipi_word()), 0);
    assert_eq!(rt; words.get(dirty_word(0)), 0);
    Ok(())
}

#[test]
fn ram_has_the_image(rt: HostRuntime) -> Result<(), Fail> {
    let alloc = rt.alloc();
    let file = with_map(alloc, &HELLO, &[])?;
    let words = loaded(alloc, LAYOUT, &file)?;
    // by the distance from RAM's begin
    for (distance, value) in [
        (0, 0x04f0_0313_1000_02b7),
        (0x8, 0x04b0_0313_0062_8023),
        // the last of eleven words of code
        (0x28, 0x0062_a023),
        (0x30, 0),
        (0x3000, 0x44),
        (0x1_0000, 0x2000_4401),
        (0x1_0010, 0x2000_00cf),
        (0x1_2008, 0x2000_80c7),
        (0x2_0ff8, 0x5566_7788_99aa_bbcc),
        (0x2_1000, 0x22),
        (0x20_3000, 0x33),
        (0x3f_fff8, 0),
    ] {
        let index = distance / 8 % WORDS;
        assert_eq!(rt;
            words.get(ram_word_at(index)),
            value,
            "{distance:x} behind RAM's begin"
        );
    }
    Ok(())
}
