//! The program: the command line's words go to the machine with the host's files and output; what came of it is
//! the exit code, and a line on standard error.
#![tactic(auto)]

mod words;

use std::process::ExitCode;
use tlbvm::{Status, code, status_line, tlbvm_still};
use vm_io::{HostImages, HostSink};
use words::words;

fn main(rt: HostRuntime) -> ExitCode {
    let status = match words(&rt) {
        Ok(words) => {
            let mut images = HostImages::new(&rt);
            let mut out = HostSink::new(rt.stdout());
            let mut log = HostSink::new(rt.stderr());
            tlbvm_still(rt.alloc(), &words, &mut images, &mut out, &mut log)
        }
        Err(status) => status,
    };
    if status != Status::Done {
        let _written = eprintln!(rt; "{}", status_line(&status));
    }
    ExitCode::from(code(&status))
}
