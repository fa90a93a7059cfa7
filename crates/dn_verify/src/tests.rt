use crate::verify_report;
use dn_io::{Rule, Status, SureSink, SureSource};
use std::alloc::Global;
use std::test::Fail;

/// The lines before the first event of a group of one client and one server.
fn header(alloc: Global) -> Result<String, Fail> {
    let mut key = String::new(alloc);
    for _ in 0..56u32 {
        key.push_str("07")?;
    }
    let mut seal = String::new(alloc);
    for _ in 0..32u32 {
        seal.push_str("03")?;
    }
    Ok(format!(in alloc;
        "dissent-report 2\ngroup 1 1 4 5 5\nckey 0 {key}\nskey 0 {key}\nslot 0 {key}\nseal 0 0 {seal}\ncorrupt\n"
    )?)
}

/// The status and the output of `verify` on such a group's report, whose lines behind the header are these.
fn answer(alloc: Global, body: &str) -> Result<(Status, Vec<u8>), Fail> {
    let mut text = header(alloc)?;
    text.push_str(body)?;
    let bytes = Vec::from_slice(alloc, text.as_bytes())?;
    let mut input = SureSource::make(bytes, 100);
    let mut output = SureSink::make(alloc, 7)?;
    let status = verify_report(alloc, &mut input, &mut output);
    Ok((status, Vec::from_slice(alloc, output.bytes())?))
}

/// Lines that are accepted, and what is told of them.
const ACCEPTED: [(&str, &str); 4] = [
    ("audit yes yes yes\nend\n", "accepted 0 rounds 0 verdicts\n"),
    (
        "@ deliver 7\nignored none\n@ lose 3\naudit no no yes\nend\n",
        "accepted 0 rounds 0 verdicts\n",
    ),
    (
        "@ judge 1 0\nignored none\nkept\naudit yes yes yes\nend\n",
        "accepted 0 rounds 0 verdicts\n",
    ),
    (
        "@ race s0 2\nignored shut\n@ tick\nclosed s0 1 0\naudit yes yes yes\nend\n",
        "accepted 0 rounds 0 verdicts\n",
    ),
];

#[test]
fn good_reports_are_accepted(rt: HostRuntime) -> Result<(), Fail> {
    for (body, due) in ACCEPTED {
        let (status, output) = answer(rt.alloc(), body)?;
        assert_eq!(rt; status, Status::Ok);
        assert_eq!(rt; output.as_slice(), due.as_bytes());
    }
    Ok(())
}

/// Lines of which one breaks a rule, its number behind the header, and the rule.
const BROKEN: [(&str, u64, u32); 20] = [
    ("", 1, 1),
    ("end\n", 1, 1),
    ("audit yes yes yes\n", 2, 1),
    ("audit yes yes yes\nend", 2, 1),
    ("audit yes yes yes\nend\nend\n", 3, 1),
    ("audit yes yes no\nend\n", 1, 8),
    ("corrupt\naudit yes yes yes\nend\n", 1, 1),
    ("@ deliver 0\nkept\naudit yes yes yes\nend\n", 1, 1),
    ("sent 0 0 s0\naudit yes yes yes\nend\n", 1, 1),
    ("@ inject c0 s0 0\naudit yes yes yes\nend\n", 1, 1),
    ("unopened form\naudit yes yes yes\nend\n", 1, 2),
    ("told c0 s0 1 repeat\naudit yes yes yes\nend\n", 1, 3),
    ("told c0 s0 1 included\naudit yes yes yes\nend\n", 1, 3),
    ("certified s0 1\naudit yes yes yes\nend\n", 1, 4),
    ("out 1 80\naudit yes yes yes\nend\n", 1, 5),
    (
        "@ judge 1 0\nblame s0 twice\naudit yes yes yes\nend\n",
        2,
        6,
    ),
    ("@ judge 1 0\naudit yes yes yes\nend\n", 2, 6),
    ("@ judge 1 0\nout 1 80\naudit yes yes yes\nend\n", 2, 5),
    ("@ judge 1 0\nunopened form\naudit yes yes yes\nend\n", 2, 2),
    ("@ open s0 1\npost 0 s0 00\naudit yes yes yes\nend\n", 2, 7),
];

#[test]
fn the_first_line_that_breaks_a_rule_is_told(rt: HostRuntime) -> Result<(), Fail> {
    for (body, line, rule) in BROKEN {
        let (status, output) = answer(rt.alloc(), body)?;
        let due = Status::NotAccepted {
            line: line.saturating_add(7),
            rule: Rule::V(rule),
        };
        assert_eq!(rt; status, due, "{body}");
        assert!(rt; output.is_empty());
    }
    Ok(())
}

#[test]
fn no_bytes_are_no_report(rt: HostRuntime) -> Result<(), Fail> {
    let alloc = rt.alloc();
    let mut input = SureSource::make(Vec::new(alloc), 1);
    let mut output = SureSink::make(alloc, 1)?;
    let due = Status::NotAccepted {
        line: 1,
        rule: Rule::V(1),
    };
    assert_eq!(rt; verify_report(alloc, &mut input, &mut output), due);
    Ok(())
}
