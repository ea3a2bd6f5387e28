// Texts of orders with their items, and the first bad line of those that are none.
use std::test::Fail;
use tlbvm::Item::{Hart, Monitor, Rounds};
use tlbvm::OrderErr::Bad;
use tlbvm::{Item, read_order};

#[test]
fn reads_items(rt: HostRuntime) -> Result<(), Fail> {
    let alloc = rt.alloc();
    let orders: [(&[u8], u8, &[Item]); 9] = [
        (b"", 1, &[]),
        (b"\n# turn 0 1\n \t\r\n", 1, &[]),
        (b"turn 0 1", 1, &[Hart { hart: 0, turns: 1 }]),
        (
            b"turn 7 12\r\nmon 3\nrounds 2\n",
            8,
            &[
                Hart { hart: 7, turns: 12 },
                Monitor { turns: 3 },
                Rounds { rounds: 2 },
            ],
        ),
        (b"\t turn\t 1  5 \t\n", 2, &[Hart { hart: 1, turns: 5 }]),
        (
            b"# first\n\n  #mon 9\nmon 9\n\n",
            3,
            &[Monitor { turns: 9 }],
        ),
        (
            b"turn 00000000000000000001 00000000000000000030",
            2,
            &[Hart { hart: 1, turns: 30 }],
        ),
        (
            b"mon 1000000000\r\n",
            1,
            &[Monitor {
                turns: 1_000_000_000,
            }],
        ),
        (
            b"rounds 111111111\nmon 1\n",
            8,
            &[
                Rounds {
                    rounds: 111_111_111,
                },
                Monitor { turns: 1 },
            ],
        ),
    ];
    for (text, harts, items) in orders {
        assert_eq!(rt; read_order(alloc, text, harts)?.as_slice(), items);
    }
    Ok(())
}

#[test]
fn reports_the_first_bad_line(rt: HostRuntime) {
    let orders: [(&str, u8, u64); 24] = [
        ("turn 0 0", 1, 1),
        ("mon 0", 1, 1),
        ("rounds 00", 1, 1),
        ("turn 1 1", 1, 1),
        ("mon 1\nturn 8 1\n", 8, 2),
        ("turn 0 000000000000000000001", 1, 1),
        ("turn 000000000000000000001 1", 8, 1),
        ("mon 99999999999999999999", 1, 1),
        ("mon 1000000001", 1, 1),
        ("turn 0 -1", 1, 1),
        ("turn 0 0x1", 1, 1),
        ("turn 0", 1, 1),
        ("turn", 1, 1),
        ("mon", 1, 1),
        ("turn 0 1 1", 1, 1),
        ("mon 1 # once", 1, 1),
        ("rounds 1 2", 1, 1),
        ("Turn 0 1", 1, 1),
        ("stop 1", 1, 1),
        ("# one\n\nmon 1\n\r\nmon\rmon 1\n", 1, 5),
        ("mon 1\nmon x\nmon 1\nmon y\n", 1, 2),
        ("rounds 111111112", 8, 1),
        ("rounds 111111111\nmon 1\n#\nturn 0 1\nmon x", 8, 4),
        ("mon 1000000000\nmon 1000000000", 1, 2),
    ];
    for (text, harts, line) in orders {
        let read = read_order(rt.alloc(), text.as_bytes(), harts);
        assert_eq!(rt; read.err(), Some(Bad { line }), "{text}");
    }
}

#[test]
fn limits_the_items(rt: HostRuntime) -> Result<(), Fail> {
    let alloc = rt.alloc();
    let mut text = Vec::new(alloc);
    for _line in 0..1_000_000 {
        text.extend_from_slice(b"mon 1\n")?;
    }
    assert_eq!(rt; read_order(alloc, &text, 1)?.len(), 1_000_000);
    text.extend_from_slice(b"#\nmon 1")?;
    let read = read_order(alloc, &text, 1);
    assert_eq!(rt; read.err(), Some(Bad { line: 1_000_002 }));
    Ok(())
}
