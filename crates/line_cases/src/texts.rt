// Lines of the commands on texts of guests, by the program and by the crate `clap`: one operand and no options.
use clap::{Arg, Command, value_parser};
use std::alloc::{AllocError, Global};
use std::process::Abort;
use std::test::Fail;
use tlbvm::{Line, read_line};

/// The commands.
const COMMANDS: [&str; 2] = ["asm", "dis"];

/// What stands behind a command, and the operand that it says; none where it is no line.
const BEHIND: [(&str, Option<&str>); 20] = [
    ("t", Some("t")),
    ("hello.s", Some("hello.s")),
    ("-", Some("-")),
    ("t=1", Some("t=1")),
    ("é", Some("é")),
    ("asm", Some("asm")),
    ("-- -e", Some("-e")),
    ("-- --harts", Some("--harts")),
    ("-- --", Some("--")),
    ("t --", Some("t")),
    ("--", None),
    ("a b", None),
    ("a -- b", None),
    ("-e", None),
    ("--harts 2 t", None),
    ("t --harts=2", None),
    ("t --pages 256", None),
    ("t --limit 5", None),
    ("t --regs", None),
    ("--regs", None),
];

/// The operand of a line of this command, here.
fn said_here<'a>(command: &str, words: &'a [String]) -> Option<&'a str> {
    match read_line(words) {
        Some(Line::Asm { text }) if command == "asm" => Some(text),
        Some(Line::Dis { elf }) if command == "dis" => Some(elf),
        _ => None,
    }
}

fn compare(
    rt: &impl Abort,
    alloc: Global,
    command: &str,
    behind: &str,
    want: Option<&str>,
) -> Result<(), AllocError> {
    let mut words = Vec::new(alloc);
    words.push(String::from_str(alloc, command)?)?;
    for word in behind.split(' ') {
        words.push(String::from_str(alloc, word)?)?;
    }
    assert_eq!(rt; said_here(command, &words), want, "{command} {behind}");
    let reader = Command::new(alloc, command).arg(Arg::new(alloc, "file").required(true))?;
    let said = match reader.try_get_matches_from(words.as_slice()) {
        Ok(matches) => matches.get_str("file") == want,
        Err(_) => want.is_none(),
    };
    assert!(rt; said, "clap: {command} {behind}");
    Ok(())
}

#[test]
fn one_operand_and_no_options(rt: HostRuntime) -> Result<(), Fail> {
    let alloc = rt.alloc();
    for command in COMMANDS {
        for (behind, want) in BEHIND {
            compare(&rt, alloc, command, behind, want)?;
        }
    }
    Ok(())
}

#[test]
fn a_command_alone_is_no_line(rt: HostRuntime) -> Result<(), Fail> {
    let alloc = rt.alloc();
    for command in COMMANDS {
        let words = vec![in alloc; String::from_str(alloc, command)?]?;
        assert!(&rt; read_line(&words).is_none(), "{command}");
    }
    Ok(())
}

/// What stands behind `gen`, and the number that it says; none where it is no line.
const NUMBERS: [(&str, Option<u32>); 8] = [
    ("0", Some(0)),
    ("7", Some(7)),
    ("-- 7", Some(7)),
    ("4294967295", Some(4_294_967_295)),
    ("4294967296", None),
    ("-1", None),
    ("x", None),
    ("1 2", None),
];

#[test]
fn a_number_of_32_bits(rt: HostRuntime) -> Result<(), Fail> {
    let alloc = rt.alloc();
    for (behind, want) in NUMBERS {
        let mut words = vec![in alloc; String::from_str(alloc, "gen")?]?;
        for word in behind.split(' ') {
            words.push(String::from_str(alloc, word)?)?;
        }
        let said = match read_line(&words) {
            Some(Line::Gen { number }) => Some(number),
            _ => None,
        };
        assert_eq!(&rt; said, want, "gen {behind}");
        let number = Arg::new(alloc, "number")
            .required(true)
            .value_parser(value_parser!(u32));
        let reader = Command::new(alloc, "gen").arg(number)?;
        let read = match reader.try_get_matches_from(words.as_slice()) {
            Ok(matches) => matches.get_one::<u32>("number"),
            Err(_) => None,
        };
        assert_eq!(&rt; read, want, "clap: gen {behind}");
    }
    Ok(())
}
