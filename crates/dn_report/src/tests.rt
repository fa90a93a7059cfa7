use super::*;
use std::test::*;

const LINES: &[&[u8]] = &[
    b"dissent-report 1\n",
    b"dissent-report 2\n",
    b"group 3 2 3 5 6\n",
    b"group 512 16 4 6 7\n",
    b"group 0 4294967295 9 9 9\n",
    b"ckey 0 0000000500000003\n",
    b"skey 15 -\n",
    b"slot 511 00\n",
    b"seal 511 15 9e\n",
    b"corrupt\n",
    b"corrupt s0\n",
    b"corrupt s1 s2 c0 c511\n",
    b"@ say c0 6869\n",
    b"@ say c1 -\n",
    b"@ open s0 1\n",
    b"@ submit c0 s0 18446744073709551615\n",
    b"@ deliver 0\n",
    b"@ lose 18446744073709551615\n",
    b"@ tick\n",
    b"@ close s0\n",
    b"@ abandon s1\n",
    b"@ leave c2\n",
    b"@ accuse c0 2 65535\n",
    b"@ judge 2 0\n",
    b"@ inject c2 s0 7\n",
    b"@ race s0 8\n",
    b"@ board s2 65536\n",
    b"post 0 c0 01000000080f\n",
    b"post 4294967296 s3 -\n",
    b"sent 0 0 s0\n",
    b"full 1 c4294967295\n",
    b"opened s0 1 0\n",
    b"closed s0 1 40\n",
    b"abandoned s1 3\n",
    b"told c0 s0 1 included\n",
    b"told c0 s0 1 late\n",
    b"told c7 s1 2 repeat\n",
    b"spoiled s0 1 s1 twice\n",
    b"spoiled s0 1 s1 prev\n",
    b"spoiled s0 1 s1 entry\n",
    b"spoiled s0 1 s1 length\n",
    b"spoiled s0 1 s1 commit\n",
    b"spoiled s0 1 s1 body\n",
    b"certified s0 1\n",
    b"held c2 1\n",
    b"held s2 1\n",
    b"listed 1\n",
    b"listed 1 0/0 2/0\n",
    b"listed 1 9/9 0/0\n",
    b"out 1 80\n",
    b"thin 2 18 20\n",
    b"message 2 0 6869\n",
    b"message 2 0 -\n",
    b"garbled 2 1\n",
    b"early\n",
    b"taken\n",
    b"noted\n",
    b"kept\n",
    b"dropped 0\n",
    b"unopened form\n",
    b"unopened stranger\n",
    b"unopened signature\n",
    b"blame c2 conceded\n",
    b"blame s1 twice\n",
    b"blame s1 entry\n",
    b"blame s1 commit\n",
    b"blame s1 shown\n",
    b"blame s1 sum\n",
    b"blame s1 pad\n",
    b"blame s1 output\n",
    b"blame c0 double\n",
    b"blame c0 rebuttal\n",
    b"silent c1\n",
    b"audit yes yes yes\n",
    b"audit no yes no\n",
    b"end\n",
    b"ignored old\n",
    b"ignored idle\n",
    b"ignored running\n",
    b"ignored repeat\n",
    b"ignored kind\n",
    b"ignored prev\n",
    b"ignored length\n",
    b"ignored digest\n",
    b"ignored spent\n",
    b"ignored body\n",
    b"ignored place\n",
    b"ignored zero\n",
    b"ignored key\n",
    b"ignored left\n",
    b"ignored known\n",
    b"ignored cert\n",
    b"ignored evidence\n",
    b"ignored calm\n",
    b"ignored truth\n",
    b"ignored none\n",
    b"ignored shut\n",
    b"ignored floor\n",
];

const NO_LINES: &[&[u8]] = &[
    b"",
    b"end",
    b"end\n\n",
    b"early\nend\n",
    b"corrupt c0 s0\n",
    b"corrupt s1 s0\n",
    b"corrupt c1 c1\n",
    b"out 1 \xff0\n",
    b"\n",
    b" \n",
    b"dissent-report\n",
    b"dissent-report 0\n",
    b"dissent-report 3\n",
    b"dissent-report 01\n",
    b"dissent-report 2 2\n",
    b"dissent-plain 1\n",
    b"group 3 2 3 5\n",
    b"group 3 2 3 5 6 7\n",
    b"ckey 0\n",
    b"ckey c0 00\n",
    b"ckey 0 0\n",
    b"seal 0 0\n",
    b"corrupt x0\n",
    b"corrupt c\n",
    b"@\n",
    b"@ \n",
    b"@  tick\n",
    b"@tick\n",
    b"@ said c0 00\n",
    b"@ tick 1\n",
    b"@ say c0\n",
    b"@ say s0 00\n",
    b"@ say c0 0A\n",
    b"@ open c0 1\n",
    b"@ deliver 18446744073709551616\n",
    b"@ lose -1\n",
    b"@ race c0 1\n",
    b"@ board s0\n",
    b"@ accuse c0 2 4294967296\n",
    b"post 0 c0 0\n",
    b"post 0 c0 0g\n",
    b"post 0 c0 --\n",
    b"post 0 c0 \n",
    b"post 0 x0 00\n",
    b"post 00 c0 00\n",
    b"sent 0 0\n",
    b"sent 0 0 s0 0\n",
    b"sent 0 0  s0\n",
    b"told c0 s0 01 included\n",
    b"told c0 s0 1 Included\n",
    b"told c0 s0 1\n",
    b"told s0 s0 1 late\n",
    b"told c0 c0 1 late\n",
    b"told c00 s0 1 late\n",
    b"told c4294967296 s0 1 late\n",
    b"spoiled s0 1 s1 sum\n",
    b"listed\n",
    b"listed 1 0\n",
    b"listed 1 0/\n",
    b"listed 1 /0\n",
    b"listed 1 0/0/0\n",
    b"listed 1 00/0\n",
    b"listed 1 0/0  1/0\n",
    b"out 1 8\n",
    b"out 1 8G\n",
    b"message 2 0\n",
    b"thin 2 18\n",
    b"ignored\n",
    b"ignored nothing\n",
    b"ignored floor floor\n",
    b"early 0\n",
    b"tock\n",
    b"dropped 18446744073709551616\n",
    b"unopened \n",
    b"blame c2\n",
    b"blame c2 guilty\n",
    b"audit yes yes\n",
    b"audit yes yes maybe\n",
    b"audit Yes yes yes\n",
    b"end \n",
    b" end\n",
    b"END\n",
    b"end\tend\n",
    b"end
\n",
];

#[test]
fn lines_are_printed_as_they_were_read(rt: HostRuntime) -> Result<(), Fail> {
    for bytes in LINES {
        let line = read_line(rt.alloc(), bytes).ok().ok_or("a line")?;
        let mut out = Vec::from_slice(rt.alloc(), b"> ").ok().ok_or("memory")?;
        print_line(&line, &mut out).ok().ok_or("memory")?;
        assert_eq!(rt; &out[..2], b"> ".as_slice());
        assert_eq!(rt; &out[2..], *bytes);
    }
    Ok(())
}

#[test]
fn nothing_else_is_a_line(rt: HostRuntime) {
    for bytes in NO_LINES {
        assert_eq!(rt;
            read_line(rt.alloc(), bytes).err(),
            Some(LineFault::Grammar),
            "{bytes:?}"
        );
    }
}

#[test]
fn a_long_post(rt: HostRuntime) -> Result<(), Fail> {
    let mut bytes = Vec::from_slice(rt.alloc(), b"post 0 c0 ")
        .ok()
        .ok_or("memory")?;
    for _ in 0..2_000_000 {
        bytes.extend_from_slice(b"0f").ok().ok_or("memory")?;
    }
    bytes.extend_from_slice(b"\n").ok().ok_or("memory")?;
    let line = read_line(rt.alloc(), &bytes).ok().ok_or("a line")?;
    let mut out = Vec::new(rt.alloc());
    print_line(&line, &mut out).ok().ok_or("memory")?;
    assert_eq!(rt; out == bytes, true);
    Ok(())
}
