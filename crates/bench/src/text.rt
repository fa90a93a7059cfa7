// Lines of text: a long line of a report, and a long script.

use anyhow::{Result, bail};
use dn_report::{print_line, read_line};
use dn_script::parse_script;
use std::alloc::Global;

/// A `post` line with so many bytes, in hex.
fn post(alloc: Global, count: u32) -> Result<Vec<u8>> {
    let mut line = Vec::from_slice(alloc, b"post 0 c0 ")?;
    for _ in 0..count {
        line.extend_from_slice(b"0f")?;
    }
    line.push(b'\n')?;
    Ok(line)
}

/// The line as it is printed after it was read.
fn again(alloc: Global, line: &[u8]) -> Result<Vec<u8>> {
    let mut out = Vec::new(alloc);
    let Ok(read) = read_line(alloc, line) else {
        bail!("no line");
    };
    if print_line(&read, &mut out).is_err() {
        bail!("no memory");
    }
    Ok(out)
}

/// Reads and prints a `post` line with so many bytes, so many times. The line has the bytes of all these lines, and how
/// many were printed as they were read.
pub fn post_line(alloc: Global, bytes: u32, count: u32) -> Result<String> {
    let line = post(alloc, bytes)?;
    let mut read = 0u64;
    let mut same = 0u32;
    for _ in 0..count {
        if again(alloc, &line)? == line {
            same = same.saturating_add(1);
        }
        read = read.saturating_add(line.len() as u64);
    }
    Ok(format!(in alloc; "{read} bytes, {same} lines")?)
}

/// A script of a group, in which clients say so many texts with so many bytes.
fn script(alloc: Global, lines: u32, size: u32) -> Result<Vec<u8>> {
    let head =
        "group 512 16 3 5 6 0000000000000000000000000000000000000000000000000000000000000000\n";
    let mut text = Vec::from_slice(alloc, head.as_bytes())?;
    for line in 0..lines {
        let client = line % 512;
        let say = format!(in alloc; "say c{client} ")?;
        text.extend_from_slice(say.as_bytes())?;
        for _ in 0..size {
            text.extend_from_slice(b"a5")?;
        }
        text.push(b'\n')?;
    }
    text.extend_from_slice(b"end\n")?;
    Ok(text)
}

/// Reads such a script so many times. The line has the bytes that were read, and how many lines count.
pub fn script_lines(alloc: Global, lines: u32, size: u32, count: u32) -> Result<String> {
    let text = script(alloc, lines, size)?;
    let mut read = 0u64;
    let mut total = 0u64;
    for _ in 0..count {
        match parse_script(alloc, &text) {
            Ok(script) => total = total.saturating_add(script.lines().len() as u64),
            Err(fault) => bail!("no script: {fault:?}"),
        }
        read = read.saturating_add(text.len() as u64);
    }
    Ok(format!(in alloc; "{read} bytes, {total} lines")?)
}
