use crate::{check_script, gen_script};
use dn_io::{Cause, Status, SureSink, SureSource};
use std::alloc::Global;
use std::test::Fail;

/// The status and the output of `check` on these bytes.
fn checked(alloc: Global, bytes: &[u8]) -> Result<(Status, Vec<u8>), Fail> {
    let mut input = SureSource::make(Vec::from_slice(alloc, bytes)?, 4_096);
    let mut output = SureSink::make(alloc, 64)?;
    let status = check_script(alloc, &mut input, &mut output);
    Ok((status, Vec::from_slice(alloc, output.bytes())?))
}

/// The large script of a number.
fn generated(alloc: Global, num: u64) -> Result<(Status, Vec<u8>), Fail> {
    let mut output = SureSink::make(alloc, 4_096)?;
    let status = gen_script(alloc, num, &mut output);
    Ok((status, Vec::from_slice(alloc, output.bytes())?))
}

/// How many lines of the text are this one.
fn count_of(text: &[u8], line: &[u8]) -> usize {
    text.split(|b| *b == b'\n')
        .filter(|part| *part == line)
        .count()
}

#[test]
fn the_large_script_is_a_good_script(rt: HostRuntime) -> Result<(), Fail> {
    let alloc = rt.alloc();
    for num in [0, 7, u64::MAX] {
        let (status, text) = generated(alloc, num)?;
        assert_eq!(rt; status, Status::Ok);
        let (status, output) = checked(alloc, &text)?;
        assert_eq!(rt; status, Status::Ok);
        assert_eq!(rt; output.as_slice(), b"script 218 lines\n".as_slice());
    }
    Ok(())
}

#[test]
fn one_client_leaves_the_large_script(rt: HostRuntime) -> Result<(), Fail> {
    let alloc = rt.alloc();
    let (_, text) = generated(alloc, u64::MAX)?;
    assert_eq!(rt; count_of(&text, b"leave c15".as_slice()), 1);
    assert_eq!(rt; count_of(&text, b"submit c15 s0 2".as_slice()), 1);
    assert_eq!(rt; count_of(&text, b"submit c15 s0 3".as_slice()), 0);
    assert_eq!(rt; count_of(&text, b"submit c16 s1 3".as_slice()), 1);
    Ok(())
}

/// A text, its first bad line and the cause.
const FAULTS: [(&str, u64, Cause); 3] = [
    ("", 1, Cause::Missing),
    ("plain 0 1 8 Z\n", 1, Cause::Range(1)),
    ("plain 1 1 8\n", 1, Cause::Fields),
];

#[test]
fn a_check_tells_the_first_bad_line(rt: HostRuntime) -> Result<(), Fail> {
    for (text, number, cause) in FAULTS {
        let (status, output) = checked(rt.alloc(), text.as_bytes())?;
        assert_eq!(rt; status, Status::BadLine { number, cause });
        assert!(rt; output.is_empty());
    }
    Ok(())
}
