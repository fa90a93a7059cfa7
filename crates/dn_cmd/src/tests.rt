use crate::dissent;
use dn_crew::ThreadCrew;
use dn_io::{Cause, Hold, MemSink, MemSource, Status, SureSink, SureSource};
use std::alloc::{AllocError, Global};
use std::sync::Wait;
use std::test::Fail;
use std::thread::Threads;

const SEED: &str = "0000000000000000000000000000000000000000000000000000000000000000";

/// Holds nobody.
#[derive(Drop)]
struct Free {}

impl Hold for Free {
    fn reached(&self, _place: u32) {}
}

fn words(alloc: Global, word: &str) -> Result<Vec<String>, AllocError> {
    let mut words = Vec::new(alloc);
    words.push(String::from_str(alloc, word)?)?;
    Ok(words)
}

/// The status and the output of `run` on a script of a first line and further ones.
fn answer<R: Threads + Wait + Sync>(
    rt: &R,
    alloc: Global,
    first: &str,
    more: &str,
) -> Result<(Status, Vec<u8>), Fail> {
    let text = format!(in alloc; "plain {first} {SEED}\n{more}")?;
    let bytes = Vec::from_slice(alloc, text.as_bytes())?;
    let mut input = SureSource::make(bytes, 7);
    let mut output = SureSink::make(alloc, 1)?;
    let status = dissent(
        rt,
        alloc,
        &words(alloc, "run")?,
        &mut input,
        &mut output,
        &mut ThreadCrew::make(alloc, Box::new(alloc, Free {})?),
    );
    Ok((status, Vec::from_slice(alloc, output.bytes())?))
}

/// The first line's numbers, the further lines, and what `run` writes.
const SUMS: [(&str, &str, &str); 3] = [
    (
        "3 2 8",
        "say 0 01\nsay 1 02\nend\n",
        "dissent-plain 1\nc 0 09\nc 1 84\nc 2 04\ns 0 10\ns 1 13\nout 03\n",
    ),
    (
        "1 1 8",
        "end\n",
        "dissent-plain 1\nc 0 1a\ns 0 00\nout 00\n",
    ),
    (
        "1 1 9",
        "say 0 ff80\nend\n",
        "dissent-plain 1\nc 0 e500\ns 0 ff80\nout ff80\n",
    ),
];

/// The same where the script has a window.
const WINDOWS: [(&str, &str, &str); 5] = [
    (
        "2 1 8",
        "submit 1\nend\n",
        "dissent-plain 1\ntold 1 included\nclosed 0 1\nc 1 12\ns 0 00\nout 00\n",
    ),
    (
        "1 1 8",
        "submit 0\ntick 1\nclose\nend\n",
        "dissent-plain 1\ntold 0 included\nclosed 1 1\nignored shut\nc 0 1a\ns 0 00\nout 00\n",
    ),
    (
        "2 1 8",
        "submit 0\nsubmit 0\ntick 100\nsubmit 1\nend\n",
        "dissent-plain 1\ntold 0 included\ntold 0 repeat\nclosed 100 1\ntold 1 late\nc 0 1a\ns 0 00\nout 00\n",
    ),
    (
        "2 1 8",
        "say 0 80\nsubmit 1\nend\n",
        "dissent-plain 1\ntold 1 included\nclosed 0 1\nc 1 12\ns 0 00\nout 00\n",
    ),
    (
        "2 1 8",
        "say 1 ff\nclose\nsubmit 0\nsubmit 0\nclose\nend\n",
        "dissent-plain 1\nclosed 0 0\ntold 0 late\ntold 0 repeat\nignored shut\ns 0 00\nout 00\n",
    ),
];

#[test]
fn windows_are_written(rt: HostRuntime) -> Result<(), Fail> {
    for (first, more, due) in WINDOWS {
        let (status, output) = answer(&rt, rt.alloc(), first, more)?;
        assert_eq!(rt; status, Status::Ok);
        assert_eq!(rt; output.as_slice(), due.as_bytes());
    }
    Ok(())
}

/// The script in which 18 of 20 clients submit, ten ticks pass, and then what is here follows.
fn twenty<R: Threads + Wait + Sync>(rt: &R, alloc: Global, more: &str) -> Result<Vec<u8>, Fail> {
    let mut lines = String::new(alloc);
    for client in 0..18u32 {
        write!(lines, "submit {client}\n")?;
    }
    lines.push_str("tick 10\n")?;
    lines.push_str(more)?;
    let (_, output) = answer(rt, alloc, "20 1 8", lines.as_str())?;
    Ok(output)
}

#[test]
fn a_window_of_twenty_closes_at_tick_eleven(rt: HostRuntime) -> Result<(), Fail> {
    let alloc = rt.alloc();
    let one_late = twenty(&rt, alloc, "submit 18\ntick 1\nsubmit 19\nend\n")?;
    let told = b"told 18 included\nclosed 11 19\ntold 19 late\nc 0 1a\n".as_slice();
    assert!(rt; one_late.windows(told.len()).any(|part| part == told));
    let all = twenty(&rt, alloc, "submit 18\nsubmit 19\ntick 1\nend\n")?;
    let told = b"told 18 included\ntold 19 included\nclosed 11 20\nc 0 1a\n".as_slice();
    assert!(rt; all.windows(told.len()).any(|part| part == told));
    Ok(())
}

#[test]
fn sums_are_written(rt: HostRuntime) -> Result<(), Fail> {
    for (first, more, due) in SUMS {
        let (status, output) = answer(&rt, rt.alloc(), first, more)?;
        assert_eq!(rt; status, Status::Ok);
        assert_eq!(rt; output.as_slice(), due.as_bytes());
    }
    Ok(())
}

/// The first line's numbers, the further lines, the first bad line and its cause.
const FAULTS: [(&str, &str, u64, Cause); 7] = [
    ("2 1 8", "tick 101\nend\n", 2, Cause::Range(1)),
    ("2 1 8", "submit 2\nend\n", 2, Cause::Range(1)),
    ("1 1 8", "say 0 01\nsay 0 01\nend\n", 3, Cause::Order),
    ("1 1 9", "say 0 ff81\nend\n", 2, Cause::Range(2)),
    ("1 1 8", "say 0 FF\nend\n", 2, Cause::Hex(2)),
    ("1 1 8", "say 00 ff\nend\n", 2, Cause::Number(1)),
    ("1 1 8", "say 0 ff\n", 3, Cause::Missing),
];

#[test]
fn the_first_bad_line_is_told(rt: HostRuntime) -> Result<(), Fail> {
    for (first, more, number, cause) in FAULTS {
        let (status, output) = answer(&rt, rt.alloc(), first, more)?;
        assert_eq!(rt; status, Status::BadLine { number, cause });
        assert!(rt; output.is_empty());
    }
    Ok(())
}

/// The status of `run` on these bytes, which come in pieces of 65,536.
fn status_of<R: Threads + Wait + Sync>(
    rt: &R,
    alloc: Global,
    bytes: Vec<u8>,
) -> Result<Status, Fail> {
    let mut input = SureSource::make(bytes, 65_536);
    let mut output = SureSink::make(alloc, 1)?;
    Ok(dissent(
        rt,
        alloc,
        &words(alloc, "run")?,
        &mut input,
        &mut output,
        &mut ThreadCrew::make(alloc, Box::new(alloc, Free {})?),
    ))
}

/// A group with a corrupt client, a race and a live run.
const GROUP: &str = "open s0 1\n\tsubmit  c1 s0 1\nflow 1\nrace s0 1 c0\nlive 2\nflow 1\nend";

/// What its report has.
const PARTS: [&str; 7] = [
    "\ncorrupt c1\n",
    "\n@ inject c1 s0 0\n",
    "\ntold c1 s0 1 included\n",
    "\n@ race s0 1\n",
    "\n@ board s0 1\n",
    "\nlisted 1 ",
    "\naudit yes yes yes\nend\n",
];

/// Whether a text has a part.
fn has(text: &[u8], part: &str) -> bool {
    part.is_empty()
        || text
            .windows(part.len())
            .any(|window| window == part.as_bytes())
}

#[test]
fn a_group_script_is_run(rt: HostRuntime) -> Result<(), Fail> {
    let alloc = rt.alloc();
    let text = format!(in alloc; "# a group\r\ngroup 2 1 2 5 5 {SEED}\n\ncorrupt c1\n{GROUP}")?;
    let mut input = SureSource::make(Vec::from_slice(alloc, text.as_bytes())?, 7);
    let mut output = SureSink::make(alloc, 1000)?;
    let status = dissent(
        &rt,
        alloc,
        &words(alloc, "run")?,
        &mut input,
        &mut output,
        &mut ThreadCrew::make(alloc, Box::new(alloc, Free {})?),
    );
    assert_eq!(rt; status, Status::Ok);
    for part in PARTS {
        assert!(rt; has(output.bytes(), part));
    }
    Ok(())
}

#[test]
fn no_text_and_too_long_a_text_are_told(rt: HostRuntime) -> Result<(), Fail> {
    let alloc = rt.alloc();
    assert_eq!(rt;
        status_of(&rt, alloc, Vec::new(alloc))?,
        Status::BadLine {
            number: 1,
            cause: Cause::Missing
        }
    );
    assert_eq!(rt;
        status_of(&rt, alloc, vec![in alloc; b'#'; 8_388_609]?)?,
        Status::TooLong { limit: 8_388_608 }
    );
    Ok(())
}

#[test]
fn other_words_are_refused(rt: HostRuntime) -> Result<(), Fail> {
    let alloc = rt.alloc();
    let mut input = SureSource::make(Vec::new(alloc), 1);
    let mut output = SureSink::make(alloc, 1)?;
    let none: [String; 0] = [];
    assert_eq!(rt;
        dissent(
            &rt,
            alloc,
            &none,
            &mut input,
            &mut output,
            &mut ThreadCrew::make(alloc, Box::new(alloc, Free {})?)
        ),
        Status::Usage
    );
    assert_eq!(rt;
        dissent(
            &rt,
            alloc,
            &words(alloc, "demo")?,
            &mut input,
            &mut output,
            &mut ThreadCrew::make(alloc, Box::new(alloc, Free {})?)
        ),
        Status::Usage
    );
    Ok(())
}

#[test]
fn a_failed_read_is_told(rt: HostRuntime) -> Result<(), Fail> {
    let alloc = rt.alloc();
    let mut input = MemSource::make(Vec::new(alloc), 1, vec![in alloc; 0]?);
    let mut output = MemSink::make(alloc, 4, vec![in alloc]?)?;
    let status = dissent(
        &rt,
        alloc,
        &words(alloc, "run")?,
        &mut input,
        &mut output,
        &mut ThreadCrew::make(alloc, Box::new(alloc, Free {})?),
    );
    assert_eq!(rt; status, Status::ReadFault);
    assert!(rt; output.bytes().is_empty());
    Ok(())
}

#[test]
fn a_failed_write_leaves_a_front(rt: HostRuntime) -> Result<(), Fail> {
    let alloc = rt.alloc();
    let text = format!(in alloc; "plain 1 1 8 {SEED}\nend\n")?;
    let bytes = Vec::from_slice(alloc, text.as_bytes())?;
    let mut input = MemSource::make(bytes, 50, vec![in alloc]?);
    let mut output = MemSink::make(alloc, 4, vec![in alloc; 2]?)?;
    let status = dissent(
        &rt,
        alloc,
        &words(alloc, "run")?,
        &mut input,
        &mut output,
        &mut ThreadCrew::make(alloc, Box::new(alloc, Free {})?),
    );
    assert_eq!(rt; status, Status::WriteFault);
    assert_eq!(rt; output.bytes(), b"dissent-".as_slice());
    Ok(())
}
