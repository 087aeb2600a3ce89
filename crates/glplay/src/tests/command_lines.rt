//! Command lines and statuses.

use super::support::{RED, run};
use output_format::Status;
use std::test::Fail;

#[test]
fn one_red_pixel(rt: HostRuntime) -> Result<(), Fail> {
    let done = run(&rt, &["play"], &RED)?;
    assert_eq!(rt; done.status, Status::Done);
    assert_eq!(rt;
        done.frames.bytes(),
        b"GLF1\x02\0\0\0\x01\0\x01\0\xff\0\0\xff".as_slice()
    );
    assert_eq!(rt; done.log.bytes(), b"end 3\n".as_slice());
    Ok(())
}

#[test]
fn words_that_are_no_command(rt: HostRuntime) -> Result<(), Fail> {
    let none: [&str; 0] = [];
    for words in [
        ["play", "--blocks", "x"].as_slice(),
        &none,
        &["show"],
        &["play "],
    ] {
        let done = run(&rt, words, &RED)?;
        assert_eq!(rt; done.status, Status::BadWords);
        assert_eq!(rt; done.frames.bytes(), b"".as_slice());
        assert_eq!(rt; done.log.bytes(), b"bad words\n".as_slice());
    }
    Ok(())
}

#[test]
fn statuses_have_their_numbers(rt: HostRuntime) {
    for (status, number) in [
        (Status::Done, 0),
        (Status::BadWords, 2),
        (Status::Refused, 3),
        (Status::NoMemory, 5),
        (Status::ReadFault, 6),
        (Status::WriteFault, 7),
    ] {
        assert_eq!(rt; status.number(), number);
    }
}
