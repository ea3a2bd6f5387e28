// The page tables of the text, and the frames of its harts.
ghost use Rattle.std.specs.Prelude.{◌≡◌, ◌++◌, ◌+◌, ◌*◌, ◌^◌, ◌<◌, OnOk, string_bytes, codes};
ghost use Rattle.asm_laws.specs.Texts.{with_feeds};
ghost use Rattle.guest_gen.specs.Text.{entries, frames, hex_number, table_lines};

use std::alloc::AllocError;

fn push_entry(text: &mut String, number: u32) -> Result<(), AllocError>
    ensures { OnOk result (string_bytes text.new ≡ string_bytes text.old ++ (hex_number (codes ".dword") number ++ codes "\n")) }
{
    write!(text, ".dword 0x{number:x}\n")
}

/// Appends so many page-table entries, each one page above the one before.
fn push_entries(text: &mut String, first: u32, count: u32) -> Result<(), AllocError>
    requires { first + 1024 * count < 2 ^ 32 }
    ensures { OnOk result (string_bytes text.new ≡ string_bytes text.old ++ with_feeds (entries first 1024 count)) }
{
    if count == 0 {
        return Ok(());
    }
    push_entry(text, first)?;
    push_entries(text, first + 0x400, count - 1)?;
    Ok(())
}

fn push_low_frame(text: &mut String, place: u32) -> Result<(), AllocError>
    ensures { OnOk result (string_bytes text.new ≡ string_bytes text.old ++ (hex_number (codes ".org") place ++ codes "\n.dword 3\n")) }
{
    write!(text, ".org 0x{place:x}\n.dword 3\n")
}

fn push_high_frame(text: &mut String, place: u32) -> Result<(), AllocError>
    ensures { OnOk result (string_bytes text.new ≡ string_bytes text.old ++ (hex_number (codes ".org") place ++ codes "\n.dword 5\n")) }
{
    write!(text, ".org 0x{place:x}\n.dword 5\n")
}

/// Appends the two frames of so many harts.
fn push_frames(text: &mut String, first: u32, count: u32) -> Result<(), AllocError>
    requires { first + 8192 * count < 2 ^ 32 }
    ensures { OnOk result (string_bytes text.new ≡ string_bytes text.old ++ with_feeds (frames first count)) }
{
    if count == 0 {
        return Ok(());
    }
    push_low_frame(text, first)?;
    push_high_frame(text, first + 0x1000)?;
    push_frames(text, first + 0x2000, count - 1)?;
    Ok(())
}

fn push_literal(text: &mut String, lines: &str) -> Result<(), AllocError>
    ensures { OnOk result (string_bytes text.new ≡ string_bytes text.old ++ lines.now) }
{
    text.push_str(lines)
}

/// Appends the tables and the frames.
pub(crate) fn push_tables(text: &mut String) -> Result<(), AllocError>
    ensures { OnOk result (string_bytes text.new ≡ string_bytes text.old ++ with_feeds table_lines) }
{
    push_literal(text, ".org 0x80011000\n")?;
    push_entries(text, 0x2000_4801, 16)?;
    push_literal(
        text,
        ".dword 0x20008801\n.org 0x80012000\nlow: .dword 0\n.org 0x80022000\n",
    )?;
    push_entries(text, 0x2001_80c7, 64)?;
    push_literal(
        text,
        ".org 0x80030000\nframes: .dword 3\n.org 0x80031000\n.dword 5\n",
    )?;
    push_frames(text, 0x8003_2000, 15)?;
    Ok(())
}
