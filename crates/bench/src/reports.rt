// The signature checks that a report asks of an outsider, alone.

use crate::deal::within_limits;
use anyhow::{Context, Result, bail};
use dn_cert::open_payload;
use dn_io::{Source, read_whole};
use dn_report::{Outcome, ReportLine, read_line};
use dn_roster::GroupSpec;
use dn_seal::deal;
use dn_wire::Bytes;
use std::alloc::Global;
use std::rt::Clock;
use std::time::Instant;

/// The most bytes of a report that are read.
const LIMIT: u64 = 1_073_741_824;

/// The payload that a line puts, if it puts one.
fn payload_in(alloc: Global, line: &[u8]) -> Option<Bytes> {
    match read_line(alloc, line) {
        Ok(ReportLine::Outcome(Outcome::Post { bytes, .. })) => Some(bytes),
        _ => None,
    }
}

/// The payloads of a report's lines.
fn payloads_in(alloc: Global, report: &[u8]) -> Result<Vec<Bytes>> {
    let mut payloads = Vec::new(alloc);
    for line in report.split_inclusive(|byte| *byte == b'\n') {
        if line.starts_with(b"post ") {
            payloads.push(payload_in(alloc, line).context("no payload")?)?;
        }
    }
    Ok(payloads)
}

/// Opens each payload of a report of the group, once. The line has how many there are, and how many open. The seconds, without those of the
/// reading, are written to standard error.
pub fn line<R: Clock + Eprint, S: Source>(
    rt: &R,
    alloc: Global,
    group: GroupSpec,
    source: &mut S,
) -> Result<String> {
    let group = within_limits(group).context("a group outside the limits")?;
    let Ok(dealt) = deal(alloc, &group) else {
        bail!("no memory");
    };
    let Ok(report) = read_whole(alloc, source, LIMIT) else {
        bail!("no report");
    };
    let payloads = payloads_in(alloc, &report)?;
    let start = Instant::now(rt)?;
    let mut opened = 0u64;
    for payload in &payloads {
        if open_payload(alloc, &dealt.roster, payload.get()).is_ok() {
            opened = opened.saturating_add(1);
        }
    }
    let checks = start.elapsed(rt)?.as_secs_f64();
    eprintln!(rt; "checks {checks:.6}")?;
    let count = payloads.len();
    Ok(format!(in alloc; "{count} payloads, {opened} open")?)
}
