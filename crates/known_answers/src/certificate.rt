// A line `roster N M OTS CLMS SLMS seed SEED` deals a group of version 1, and `roster2 ..` one of version 2. The lines under it that begin with bytes are `BYTES ANSWER`:
// what checking the bytes as a certificate of that group answers. The answer is `ok`, or the first refusal: `Form` with
// the record's fault, `Missing SERVER`, `Body SERVER`, `Signature SERVER`.

ghost use Rattle.std.specs.Prelude.{◌≤◌};

use crate::fields::{array_at, bytes_at, end_at, number_at, text};
use crate::record::fault_of;
use crate::roster::roster_of;
use anyhow::{Context, Result, bail, ensure};
use dn_cert::{CertFault, check};
use dn_roster::Roster;
use dn_wire::ServerId;
use std::alloc::Global;

/// The roster of the group of a line, which has this version.
pub fn dealt(alloc: Global, version: u8, fields: &[&str]) -> Result<Roster>
    requires { (1 ≤ version) × (version ≤ 2) }
{
    ensure!(text(fields, 5)? == "seed", "no seed");
    end_at(fields, 7)?;
    roster_of(alloc, version, array_at(fields, 6)?, fields)
}

/// The refusal that an answer spells, or none for `ok`.
fn refusal_of(answer: &[&str]) -> Result<Option<CertFault>> {
    let (word, rest) = answer.split_first().context("no answer")?;
    match *word {
        "ok" => {
            end_at(rest, 0)?;
            return Ok(None);
        }
        "Form" => return Ok(fault_of(rest)?.map(CertFault::Form)),
        _ => {}
    }
    end_at(rest, 1)?;
    let server = ServerId(number_at(rest, 0)?);
    Ok(Some(match *word {
        "Missing" => CertFault::Missing { server },
        "Body" => CertFault::Body { server },
        "Signature" => CertFault::Signature { server },
        _ => bail!("no such answer: {word}"),
    }))
}

/// Whether checking the bytes of the line answers as it says.
pub fn passes(alloc: Global, roster: &Roster, fields: &[&str]) -> Result<bool> {
    let bytes = bytes_at(alloc, fields, 0)?;
    let due = refusal_of(fields.get(1..).unwrap_or(&[]))?;
    match check(alloc, roster, &bytes) {
        Ok(certificate) => Ok(due.is_none() && certificate.bytes() == bytes.as_slice()),
        Err(CertFault::NoMemory) => bail!("no memory"),
        Err(fault) => Ok(due == Some(fault)),
    }
}
