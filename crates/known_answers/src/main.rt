//! Computes values of the lower layers and compares them with known ones.
//!
//! It reads lines from standard input: a word that names a kind of value, what the value is computed from, and the
//! value, with one space between two fields; a line that deals a group is followed by lines on it. It names each line that differs or can't be read by its number, counted
//! from 1, and writes last how many lines passed and how many failed. The process ends with 0 where none failed and
//! with 1 otherwise. No part of the product.
#![tactic(auto)]

mod block;
mod certificate;
mod dealing;
mod digests;
mod fields;
mod layout;
mod lms;
mod memory;
mod pad;
mod record;
mod report;
mod roster;
mod window;

use anyhow::{Context, Result, bail};
use dn_roster::Roster;
use std::alloc::Global;
use std::io::{self, BufRead, BufReader, BufWriter, Write};
use std::process::ExitCode;

/// Whether a line's value is the one that is computed. An error is a line that can't be read. `group` is the roster of the
/// group that a line dealt last.
fn passes(alloc: Global, group: &mut Option<Roster>, line: &str) -> Result<bool> {
    let fields = fields::split(alloc, line, ' ')?;
    let (word, rest) = fields.split_first().context("an empty line")?;
    match *word {
        "pad" => pad::passes(alloc, rest),
        "seed_commitment"
        | "cipher_digest"
        | "server_digest"
        | "mask_key"
        | "block_check"
        | "mask_seed" => digests::passes(alloc, word, rest),
        "window" => window::passes(alloc, rest),
        "layout" => layout::passes(alloc, rest),
        "block" | "read" => block::passes(alloc, word, rest),
        "key" | "sig" | "no" | "lms" => lms::passes(alloc, word, rest),
        "statement" | "envelope" | "payload" => record::passes(alloc, word, rest),
        "report" => report::passes(alloc, line),
        "dealt" => dealing::passes(alloc, rest),
        "roster" | "roster2" => {
            *group = None;
            let version = if *word == "roster" { 1 } else { 2 };
            *group = Some(certificate::dealt(alloc, version, rest)?);
            Ok(true)
        }
        _ => match group {
            Some(roster) => certificate::passes(alloc, roster, &fields),
            None => bail!("no such word: {word}"),
        },
    }
}

/// Says what is wrong with a line, if anything, and whether it passed.
fn told<W: Write>(
    alloc: Global,
    out: &mut W,
    group: &mut Option<Roster>,
    number: u64,
    line: &str,
) -> io::Result<bool> {
    match passes(alloc, group, line) {
        Ok(true) => return Ok(true),
        Ok(false) => writeln!(out, "line {number} differs")?,
        Err(error) => writeln!(out, "line {number}: {error}")?,
    }
    Ok(false)
}

fn run(rt: &HostRuntime) -> io::Result<bool> {
    let alloc = rt.alloc();
    let mut out = BufWriter::new(alloc, io::writer(rt))?;
    let mut passed = 0u64;
    let mut failed = 0u64;
    let mut group = None;
    for line in BufReader::new(alloc, rt.reader())?.lines(alloc) {
        let number = passed.saturating_add(failed).saturating_add(1);
        if told(alloc, &mut out, &mut group, number, line?.as_str())? {
            passed = passed.saturating_add(1);
        } else {
            failed = failed.saturating_add(1);
        }
    }
    writeln!(out, "{passed} passed, {failed} failed")?;
    out.flush()?;
    Ok(failed == 0)
}

fn main(rt: HostRuntime) -> io::Result<ExitCode> {
    Ok(if run(&rt)? {
        ExitCode::SUCCESS
    } else {
        ExitCode::FAILURE
    })
}
