// Lines `pad SEED ROUND N PAD`: the first N bits of the pad.

use crate::fields::{array_at, ends_in, number_at};
use crate::memory::given;
use anyhow::Result;
use dn_pads::{Seed, pad};
use dn_wire::Round;
use std::alloc::Global;

/// Whether the pad is the one of the line.
pub fn passes(alloc: Global, fields: &[&str]) -> Result<bool> {
    let seed: Seed = array_at(fields, 0)?;
    let r = Round(number_at(fields, 1)?);
    let bits = given(pad(alloc, &seed, r, number_at(fields, 2)?))?;
    let mut bytes = Vec::new(alloc);
    given(bits.write_bytes(alloc, &mut bytes))?;
    ends_in(alloc, fields, 3, &bytes)
}
