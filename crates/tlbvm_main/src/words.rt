// The words of the command line.
use std::alloc::Global;
use std::env;
use std::io::ErrorKind;
use std::rt::Env;
use tlbvm::Status;

/// The words behind the program's own name.
///
/// # Errors
///
/// `NoMemory` where there was no memory for them, and `Usage` where one isn't UTF-8.
pub(crate) fn words<R: Env + AllocGlobal>(rt: &R) -> Result<Vec<String>, Status> {
    let args = env::args(rt).map_err(|error| match error.kind() {
        ErrorKind::OutOfMemory => Status::NoMemory,
        _ => Status::Usage,
    })?;
    args.skip(1)
        .collect(rt.alloc())
        .map_err(|_| Status::NoMemory)
}
