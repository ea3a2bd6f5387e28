//! Scripts at their limits, and texts that are none.

use crate::{Command, ScriptErr, read_script};
use std::test::Fail;

/// A small machine's pages: its RAM ends at 0x80100000.
const PAGES: u32 = 256;

#[test]
fn reads_commands(rt: HostRuntime) -> Result<(), Fail> {
    let text =
        b"# first the banner\nawait 12\r\n\n\tdump  0x80000000 16\nawait 0\nstop\nawait 0001048576\n dump 0x00000000800FF000 4096\ndump 0x800fffff 1";
    let script = [
        Command::Await(12),
        Command::Dump {
            at: 0x8000_0000,
            len: 16,
        },
        Command::Await(0),
        Command::Stop,
        Command::Await(1_048_576),
        Command::Dump {
            at: 0x800f_f000,
            len: 4_096,
        },
        Command::Dump {
            at: 0x800f_ffff,
            len: 1,
        },
    ];
    assert_eq!(rt;
        read_script(rt.alloc(), text, PAGES)?.as_slice(),
        script.as_slice()
    );
    assert_eq!(rt; read_script(rt.alloc(), b"", PAGES)?.len(), 0);
    assert_eq!(rt; read_script(rt.alloc(), b"#stop\n \t\n", PAGES)?.len(), 0);
    Ok(())
}

#[test]
fn refuses_lines(rt: HostRuntime) {
    let lines: [&[u8]; 24] = [
        b"await",
        b"await 1048577",
        b"await -1",
        b"await 0x10",
        b"await 1 2",
        b"Await 1",
        b"dump",
        b"dump 0x80000000",
        b"dump 0x80000000 0",
        b"dump 0x80000000 4097",
        b"dump 0x80000000 1 1",
        b"dump 0x7fffffff 1",
        b"dump 0x800fffff 2",
        b"dump 0x80100000 1",
        b"dump 0xffffffffffffffff 1",
        b"dump 0x00000000080000000 1",
        b"dump 0x 1",
        b"dump 0x8000000g 1",
        b"dump 0X80000000 1",
        b"dump 2147483648 1",
        b"stop 1",
        b"stop #",
        b"snapshot",
        b"stop\r \n",
    ];
    for line in lines {
        assert_eq!(rt;
            read_script(rt.alloc(), line, PAGES).err(),
            Some(ScriptErr::Bad { line: 1 })
        );
    }
}

#[test]
fn tells_the_first_bad_line(rt: HostRuntime) {
    let texts: [(&[u8], u64); 4] = [
        (b"await 1\n# await\n\nawait 2\nsnapshot\nstop", 5),
        (b"stop\nend\nsnapshot", 2),
        (b"\n\nawait 1048577\nstop", 3),
        (b"dump 0x80000000 1\ndump 0x80000000 4097", 2),
    ];
    for (text, line) in texts {
        assert_eq!(rt;
            read_script(rt.alloc(), text, PAGES).err(),
            Some(ScriptErr::Bad { line })
        );
    }
}

#[test]
fn takes_a_thousand_commands(rt: HostRuntime) -> Result<(), Fail> {
    let mut text = Vec::new(rt.alloc());
    for _ in 0..1_000 {
        text.extend_from_slice(b"stop\n")?;
    }
    assert_eq!(rt;
        read_script(rt.alloc(), text.as_slice(), PAGES)?.len(),
        1_000
    );
    text.extend_from_slice(b"# one more\nstop\n")?;
    assert_eq!(rt;
        read_script(rt.alloc(), text.as_slice(), PAGES).err(),
        Some(ScriptErr::Bad { line: 1_002 })
    );
    Ok(())
}

#[test]
fn knows_how_much_ram_there_is(rt: HostRuntime) -> Result<(), Fail> {
    let last = b"dump 0x80fff000 4096";
    assert_eq!(rt; read_script(rt.alloc(), last, 4_096)?.len(), 1);
    assert_eq!(rt;
        read_script(rt.alloc(), last, 4_095).err(),
        Some(ScriptErr::Bad { line: 1 })
    );
    Ok(())
}
