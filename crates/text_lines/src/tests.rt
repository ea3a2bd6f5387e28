//! Texts with their lines, lines with their words, and numbers at their limits.

use crate::{next_line, next_word, read_number, says_nothing};

#[test]
fn gives_the_lines_of_a_text(rt: HostRuntime) {
    let texts: [(&[u8], &[&[u8]]); 10] = [
        (b"", &[]),
        (b"a", &[b"a"]),
        (b"one\ntwo\n", &[b"one", b"two"]),
        (b"one\r\ntwo", &[b"one", b"two"]),
        (b"\n", &[b""]),
        (b"\n\n x", &[b"", b"", b" x"]),
        (b"\r\n", &[b""]),
        (b"a\rb\n\rc\r\r\n", &[b"a\rb", b"\rc\r"]),
        (b"end\r", &[b"end\r"]),
        (b"\r\r\n\r", &[b"\r", b"\r"]),
    ];
    for (text, lines) in texts {
        let mut rest = text;
        for wanted in lines {
            let (line, behind) = next_line(rest).expect(&rt, "a line is left");
            assert!(rt; line == *wanted);
            rest = behind;
        }
        assert!(rt; next_line(rest).is_none());
    }
}

#[test]
fn gives_the_words_of_a_line(rt: HostRuntime) {
    let lines: [(&[u8], &[&[u8]]); 8] = [
        (b"", &[]),
        (b" \t ", &[]),
        (b"turn", &[b"turn"]),
        (b"turn 0 12", &[b"turn", b"0", b"12"]),
        (b"\t mon\t\t7  ", &[b"mon", b"7"]),
        (b"a#b #c", &[b"a#b", b"#c"]),
        (b"a\rb \r", &[b"a\rb", b"\r"]),
        (b"x ", &[b"x"]),
    ];
    for (line, words) in lines {
        let mut rest = line;
        for wanted in words {
            let (word, behind) = next_word(rest).expect(&rt, "a word is left");
            assert!(rt; word == *wanted);
            rest = behind;
        }
        assert!(rt; next_word(rest).is_none());
    }
}

#[test]
fn knows_comments(rt: HostRuntime) {
    let lines: [(&[u8], bool); 9] = [
        (b"", true),
        (b"  \t", true),
        (b"#", true),
        (b"# turn 0 1", true),
        (b" \t#turn", true),
        (b"##", true),
        (b"turn # 0", false),
        (b"a#", false),
        (b"\r", false),
    ];
    for (line, silent) in lines {
        assert!(rt; says_nothing(line) == silent);
    }
}

#[test]
fn reads_numbers(rt: HostRuntime) {
    let numbers: [(&[u8], u64, Option<u64>); 16] = [
        (b"0", 0, Some(0)),
        (b"7", 6, None),
        (b"7", 7, Some(7)),
        (b"0042", 100, Some(42)),
        (b"00000000000000000009", 9, Some(9)),
        (b"000000000000000000009", 9, None),
        (b"99999999999999999999", 1_000_000_000, None),
        (b"", 9, None),
        (b"-1", 9, None),
        (b"1 ", 9, None),
        (b"0x1", 9, None),
        (b"1000000001", 1_000_000_000, None),
        (b"18446744073709551615", u64::MAX, Some(u64::MAX)),
        (b"18446744073709551616", u64::MAX, None),
        (b"99999999999999999999", u64::MAX, None),
        (b"1152921504606846976", 1 << 60, Some(1 << 60)),
    ];
    for (text, most, number) in numbers {
        assert!(rt; read_number(text, most) == number);
    }
}
