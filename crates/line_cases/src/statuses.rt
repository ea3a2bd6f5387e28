// What the program says of each way that a call can end: the exit code, and the line on standard error.
use std::process::Abort;
use tlbvm::{BadImage, Status, code, status_line};

fn says(rt: &impl Abort, status: Status, exit: u8, line: &str) {
    assert_eq!(rt; code(&status), exit, "{line}");
    assert_eq!(rt; status_line(&status).as_str(), line);
}

#[test]
fn statuses_have_codes_and_lines(rt: HostRuntime) {
    for (status, exit, line) in [
        (Status::Done, 0, "done"),
        (
            Status::Usage,
            2,
            "usage: tlbvm plain, sched, run, churn, asm, dis or gen",
        ),
        (Status::ReadFault, 3, "read failed"),
        (Status::TooLong, 4, "file too long"),
        (Status::WriteFault, 9, "write failed"),
        (Status::NoMemory, 10, "out of memory"),
        (Status::OutFull, 13, "output full"),
        (Status::AllStopped, 14, "all harts stopped"),
        (Status::OrderEnd, 15, "order ended"),
        (Status::Stopped, 16, "stopped"),
    ] {
        says(&rt, status, exit, line);
    }
}

#[test]
fn kinds_of_images_have_numbers(rt: HostRuntime) {
    for (status, exit, line) in [
        (Status::BadImage(BadImage::Short), 5, "bad image: kind 1"),
        (Status::BadImage(BadImage::NotElf), 5, "bad image: kind 2"),
        (Status::BadImage(BadImage::NotRv64), 5, "bad image: kind 3"),
        (Status::BadImage(BadImage::NotExec), 5, "bad image: kind 4"),
        (
            Status::BadImage(BadImage::Compressed),
            5,
            "bad image: kind 5",
        ),
        (
            Status::BadImage(BadImage::SegmentOutside),
            5,
            "bad image: kind 6",
        ),
        (Status::BadImage(BadImage::Overlap), 5, "bad image: kind 7"),
        (
            Status::BadImage(BadImage::EntryOutside),
            5,
            "bad image: kind 8",
        ),
    ] {
        says(&rt, status, exit, line);
    }
}

#[test]
fn numbers_stand_in_lines(rt: HostRuntime) {
    for (status, exit, line) in [
        (Status::BadOrder(1), 6, "bad order: line 1"),
        (
            Status::BadOrder(18446744073709551615),
            6,
            "bad order: line 18446744073709551615",
        ),
        (Status::GuestFailed(0), 11, "guest failed: 0"),
        (Status::GuestFailed(7), 11, "guest failed: 7"),
        (Status::GuestFailed(65535), 11, "guest failed: 65535"),
        (Status::Limit(3), 12, "limit: hart 3"),
    ] {
        says(&rt, status, exit, line);
    }
}
