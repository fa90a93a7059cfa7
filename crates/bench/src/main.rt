//! Single operations for `scripts/bench.sh` to time. No part of the product.
//!
//! Its words are the name of a measure and the measure's numbers. It prints lines that depend on all that was computed,
//! so that they can be compared with what another program prints.
#![tactic(auto)]

mod deal;
mod flight;
mod lms;
mod notary;
mod pads;
mod records;
mod reports;
mod rounds;
mod sums;
mod text;
mod verdicts;

use anyhow::{Context, Result, bail};
use dn_io::{ReadEdge, Source};
use dn_roster::GroupSpec;
use std::alloc::Global;
use std::env;
use std::rt::Clock;
use std::str::FromStr;
use std::thread::Threads;

/// The number that stands at a place among the words.
fn number<T: FromStr>(words: &[String], place: usize) -> Result<T>
where
    T::Err: std::error::Error,
{
    let word = words.get(place).context("too few words")?;
    word.as_str()
        .parse::<T>()
        .context(format_args!("reading {word:?}"))
}

/// The group of version 1 that the words tell: its numbers of clients and servers, its type codes, and the number that its seed ends
/// with, in eight bytes with the high one first.
fn group(words: &[String]) -> Result<GroupSpec> {
    let mut seed = [0; 32];
    seed[24..].copy_from_slice(&number::<u64>(words, 6)?.to_be_bytes());
    Ok(GroupSpec {
        version: 1,
        clients: number(words, 1)?,
        servers: number(words, 2)?,
        ots: number(words, 3)?,
        client_lms: number(words, 4)?,
        server_lms: number(words, 5)?,
        seed,
    })
}

/// The lines of the measure that the words ask for.
fn measure<S: Source>(
    rt: &(impl Threads + Clock + Eprint + Sync),
    alloc: Global,
    words: &[String],
    source: &mut S,
) -> Result<String> {
    let name = words.first().context("no measure")?;
    match name.as_str() {
        "pads" => pads::line(
            alloc,
            number(words, 1)?,
            number(words, 2)?,
            number(words, 3)?,
        ),
        "lms" => lms::lines(
            rt,
            alloc,
            number(words, 1)?,
            number(words, 2)?,
            number(words, 3)?,
        ),
        "records" => records::line(
            alloc,
            number(words, 1)?,
            number(words, 2)?,
            number(words, 3)?,
        ),
        "post" => text::post_line(alloc, number(words, 1)?, number(words, 2)?),
        "script" => text::script_lines(
            alloc,
            number(words, 1)?,
            number(words, 2)?,
            number(words, 3)?,
        ),
        "notary" => notary::line(rt, alloc, number(words, 1)?, number(words, 2)?),
        "deal" => deal::line(alloc, group(words)?),
        "flight" => flight::line(rt, alloc, number(words, 1)?, number(words, 2)?),
        "round" => rounds::line(rt, alloc, group(words)?),
        "report" => reports::line(rt, alloc, group(words)?, source),
        "sum" => sums::line(
            rt,
            alloc,
            number(words, 1)?,
            number(words, 2)?,
            number(words, 3)?,
            number(words, 4)?,
        ),
        "verdict" => verdicts::line(
            rt,
            alloc,
            number(words, 1)?,
            number(words, 2)?,
            number(words, 3)?,
        ),
        name => bail!("no measure {name:?}"),
    }
}

fn main(rt: HostRuntime) -> Result<()> {
    let mut words = Vec::new(rt.alloc());
    for word in env::args(&rt)?.skip(1) {
        words.push(word)?;
    }
    let mut source = ReadEdge::make(rt.reader());
    let line = measure(&rt, rt.alloc(), &words, &mut source)?;
    println!(rt; "{line}")?;
    Ok(())
}
