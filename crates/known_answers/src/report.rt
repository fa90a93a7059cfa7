// Lines `report LINE`: a line of a report, which is printed as it was read.

use crate::memory::given;
use anyhow::{Context, Result, bail};
use dn_report::{print_line, read_line};
use std::alloc::Global;

/// Whether the line is printed as it was read.
pub fn passes(alloc: Global, line: &str) -> Result<bool> {
    let text = line.strip_prefix("report ").context("no line")?;
    let mut bytes = Vec::from_slice(alloc, text.as_bytes())?;
    bytes.push(b'\n')?;
    let read = match read_line(alloc, &bytes) {
        Ok(read) => read,
        Err(fault) => bail!("no line of a report: {fault:?}"),
    };
    let mut out = Vec::new(alloc);
    given(print_line(&read, &mut out))?;
    Ok(out == bytes)
}
