// Lines `layout LENGTHS OUT NEXT`: the slots' lengths in bytes after an output, with a comma between two of them.

use crate::fields::{bytes_at, end_at, number_at, split, text};
use crate::memory::given;
use anyhow::{Context, Result, bail, ensure};
use dn_bits::Bits;
use dn_layout::Layout;
use dn_wire::SlotId;
use std::alloc::Global;

/// The layout that a field spells.
fn layout_at(alloc: Global, fields: &[&str], place: usize) -> Result<Layout> {
    let words = split(alloc, text(fields, place)?, ',')?;
    let mut lengths = Vec::with_capacity(alloc, words.len())?;
    for s in 0..words.len() {
        lengths.push(number_at(&words, s)?)?;
    }
    Layout::of(lengths).context("no layout has these lengths")
}

/// Whether two layouts are one: as many slots, and each in the same places.
fn are_one(a: &Layout, b: &Layout) -> bool {
    a.slots() == b.slots() && (0..a.slots()).all(|s| a.range(SlotId(s)) == b.range(SlotId(s)))
}

/// Whether the layout after the output is the one of the line.
pub fn passes(alloc: Global, fields: &[&str]) -> Result<bool> {
    end_at(fields, 3)?;
    let layout = layout_at(alloc, fields, 0)?;
    let bytes = bytes_at(alloc, fields, 1)?;
    let Ok(out) = Bits::from_bytes(alloc, &bytes, layout.bits()) else {
        bail!("no output of this layout");
    };
    ensure!(out.len() == layout.bits(), "an output of another layout");
    let next = given(layout.next(alloc, &out))?;
    Ok(are_one(&next, &layout_at(alloc, fields, 2)?))
}
