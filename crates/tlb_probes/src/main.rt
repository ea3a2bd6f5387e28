//! Looks the pages of a full TLB up again and again, by `probe` through a port of the machine's table or in plain atomic words, and prints
//! the sum of the addresses that were found. The command line says how: `atomics` and not a port, and how often.
#![tactic(auto)]

mod atomics;
mod ports;

use std::{env, io};

fn main(rt: HostRuntime) -> io::Result<()> {
    let alloc = rt.alloc();
    let mut atomics = false;
    let mut rounds = 1;
    for word in env::args(&rt)?.skip(1) {
        match word.as_str() {
            "atomics" => atomics = true,
            number => rounds = number.parse::<u32>().unwrap_or(1),
        }
    }
    let sum = if atomics {
        atomics::sum(alloc, rounds)?
    } else {
        ports::sum(alloc, rounds)?
    };
    println!(rt; "{sum}")
}
