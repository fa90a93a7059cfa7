use crate::{notarized, notary};
use dn_io::{Cause, Rule, Status, SureSink, SureSource};
use std::alloc::Global;
use std::test::Fail;

/// The status and the output of `notary` with the number 7 on these bytes.
fn signed(alloc: Global, bytes: &[u8]) -> Result<(Status, Vec<u8>), Fail> {
    let mut input = SureSource::make(Vec::from_slice(alloc, bytes)?, 4_096);
    let mut output = SureSink::make(alloc, 65_536)?;
    let status = notary(alloc, 7, &mut input, &mut output);
    Ok((status, Vec::from_slice(alloc, output.bytes())?))
}

/// The status and the output of `notarized` on these bytes.
fn judged(alloc: Global, bytes: &[u8]) -> Result<(Status, Vec<u8>), Fail> {
    let mut input = SureSource::make(Vec::from_slice(alloc, bytes)?, 65_536);
    let mut output = SureSink::make(alloc, 64)?;
    let status = notarized(alloc, &mut input, &mut output);
    Ok((status, Vec::from_slice(alloc, output.bytes())?))
}

/// So many lines of this text, and the last line.
fn list_of(alloc: Global, line: &[u8], count: u32) -> Result<Vec<u8>, Fail> {
    let mut list = Vec::new(alloc);
    for _ in 0..count {
        list.extend_from_slice(line)?;
    }
    list.extend_from_slice(b"end\n")?;
    Ok(list)
}

/// The lines of a text, each with its line feed, with some of them in another order: each place has the line of this number.
fn in_order(alloc: Global, text: &[u8], order: &[usize]) -> Result<Vec<u8>, Fail> {
    let mut lines = Vec::new(alloc);
    for line in text.split(|b| *b == b'\n') {
        lines.push(line)?;
    }
    let mut out = Vec::new(alloc);
    for at in order {
        if let Some(line) = lines.get(*at) {
            out.extend_from_slice(line)?;
            out.push(b'\n')?;
        }
    }
    Ok(out)
}

fn broken(line: u64, rule: u32) -> Status {
    Status::NotAccepted {
        line,
        rule: Rule::N(rule),
    }
}

#[test]
fn what_is_signed_is_accepted(rt: HostRuntime) -> Result<(), Fail> {
    let alloc: Global = rt.alloc();
    let list = list_of(alloc, b"entry -\n", 33)?;
    let (status, text) = signed(alloc, &list)?;
    assert_eq!(rt; status, Status::Ok);
    let (status, told) = judged(alloc, &text)?;
    assert_eq!(rt; status, Status::Ok);
    assert_eq!(rt; told.as_slice(), b"notarized 33\n".as_slice());
    let (_, text) = signed(alloc, b"end\n")?;
    let (_, told) = judged(alloc, &text)?;
    assert_eq!(rt; told.as_slice(), b"notarized 0\n".as_slice());
    Ok(())
}

#[test]
fn the_first_line_that_breaks_a_rule_is_told(rt: HostRuntime) -> Result<(), Fail> {
    let alloc: Global = rt.alloc();
    let (_, text) = signed(alloc, b"# two\n\tentry 00ff \r\nentry -\nend")?;
    let orders: [(&[usize], Status); 8] = [
        (&[0, 1, 2, 3, 4], Status::Ok),
        (&[0, 1, 3, 2, 4], broken(3, 2)),
        (&[0, 1, 2, 2, 4], broken(4, 2)),
        (&[1, 2, 3, 4], broken(1, 1)),
        (&[0, 2, 3, 4], broken(2, 1)),
        (&[0, 1, 2, 3], broken(5, 1)),
        (&[0, 1, 2, 3, 4, 4], broken(6, 1)),
        (&[0, 1, 2, 0, 4], broken(4, 1)),
    ];
    for (order, status) in orders {
        assert_eq!(rt; judged(alloc, &in_order(alloc, &text, order)?)?.0, status);
    }
    Ok(())
}

#[test]
fn a_changed_signature_is_told(rt: HostRuntime) -> Result<(), Fail> {
    let alloc: Global = rt.alloc();
    let (_, mut text) = signed(alloc, b"entry 00ff\nend\n")?;
    let last = text.len().saturating_sub(6);
    assert!(rt; last < text.len());
    text[last] = if text[last] == b'0' { b'1' } else { b'0' };
    assert_eq!(rt; judged(alloc, &text)?.0, broken(3, 3));
    Ok(())
}

/// A list, its first bad line and the cause.
const FAULTS: [(&str, u64, Cause); 8] = [
    ("", 1, Cause::Missing),
    ("entry -\n\n", 3, Cause::Missing),
    ("entry 0\u{7f}\n", 1, Cause::Bytes),
    ("say 00\n", 1, Cause::Word),
    ("end\nend\n", 2, Cause::Order),
    ("entry\n", 1, Cause::Fields),
    ("end 1\n", 1, Cause::Fields),
    ("entry 0\n", 1, Cause::Hex(1)),
];

#[test]
fn the_first_bad_line_is_told(rt: HostRuntime) -> Result<(), Fail> {
    let alloc: Global = rt.alloc();
    for (list, number, cause) in FAULTS {
        let (status, output) = signed(alloc, list.as_bytes())?;
        assert_eq!(rt; status, Status::BadLine { number, cause });
        assert!(rt; output.is_empty());
    }
    let many = list_of(alloc, b"entry -\n", 1_025)?;
    let cause = Cause::Many;
    assert_eq!(rt;
        signed(alloc, &many)?.0,
        Status::BadLine {
            number: 1_025,
            cause
        }
    );
    Ok(())
}
