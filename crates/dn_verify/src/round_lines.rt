// What a round came to, as lines.

ghost use Rattle.std.specs.Prelude.{◌≡◌, ◌*◌, ◌++◌, ◌∷◌, List, map, flat_map, length, Contains, IfOk, OnOk};
ghost use Rattle.dn_bits.specs.Bits.{below, bytes_of};
ghost use Rattle.dn_layout.specs.Block.{read_of};
ghost use Rattle.dn_layout.specs.Layout.{bits_of};
ghost use Rattle.dn_cert.specs.Chain.{bodies};
ghost use Rattle.dn_report.specs.declared.outcome.Outcome.{Outcome as OutcomeOf};
ghost use Rattle.dn_verify.specs.Telling.{block_line as line_of, pair_of, listed_line, slot_lines, output_lines_of, IsRoundTold, TellsRound};
ghost use Rattle.dn_verify.specs.Kept.{has_mark};

use crate::marks::Marks;
use dn_bits::Bits;
use dn_cert::Chain;
use dn_layout::{Block, Layout, read_block};
use dn_memory::NoMemory;
use dn_records::Body;
use dn_report::{ListedPair, ListedPairs, Outcome};
use dn_wire::{Bytes, Round, SlotId};
use std::alloc::Global;
use std::collections::VecDeque;

/// Who counts in a round.
fn pairs_of(alloc: Global, body: &Body) -> Result<ListedPairs, NoMemory>
    ensures { IfOk result (λ pairs. pairs ≡ map pair_of body.now.listed) }
{
    let mut pairs = Vec::new(alloc);
    for listed in body.listed.get() {
        pairs.push(ListedPair {
            client: listed.client,
            server: listed.server,
        })?;
    }
    Ok(ListedPairs::of(pairs))
}

/// The line of a block: its message, or that it is garbled.
fn block_line(alloc: Global, r: Round, slot: SlotId, block: &[u8]) -> Result<Outcome, NoMemory>
    ensures { IfOk result (λ line. line ≡ line_of r slot.0 (read_of block.now)) }
{
    Ok(match read_block(alloc, block)? {
        Block::Message { text, .. } => Outcome::Message {
            r,
            slot,
            text: Bytes::of(text),
        },
        Block::Garbled => Outcome::Garbled { r, slot },
    })
}

/// Tells the line of a slot: the message in its block, or that it is garbled; none where the slot is closed.
fn tell_slot(
    alloc: Global,
    r: Round,
    slot: SlotId,
    layout: &Layout,
    output: &[u8],
    due: &mut VecDeque<Outcome>,
) -> Result<(), NoMemory>
    requires { 8 * length output.now ≡ bits_of layout.now }
    ensures { OnOk result (due.new.items ≡ due.old.items ++ slot_lines r layout.now output.now slot.0) }
{
    let Some((first, past)) = layout.range(slot) else {
        return Ok(());
    };
    let block = &output[(first / 8) as usize..(past / 8) as usize];
    due.push_back(block_line(alloc, r, slot, block)?)?;
    Ok(())
}

/// Tells the lines of the open slots.
fn tell_slots(
    alloc: Global,
    r: Round,
    layout: &Layout,
    output: &[u8],
    due: &mut VecDeque<Outcome>,
) -> Result<(), NoMemory>
    requires { 8 * length output.now ≡ bits_of layout.now }
    ensures { OnOk result (due.new.items ≡ due.old.items ++ flat_map (slot_lines r layout.now output.now) (below (length layout.now))) }
{
    for slot in 0..layout.slots() {
        tell_slot(alloc, r, SlotId(slot), layout, output, due)?;
    }
    Ok(())
}

/// Tells the output and what the open slots say.
fn tell_output(
    alloc: Global,
    r: Round,
    output: &Bits,
    layout: &Layout,
    due: &mut VecDeque<Outcome>,
) -> Result<(), NoMemory>
    requires { length output.now ≡ bits_of layout.now }
    ensures { OnOk result (due.new.items ≡ due.old.items ++ output_lines_of r layout.now (bytes_of output.now)) }
{
    let mut bytes = Vec::new(alloc);
    output.write_bytes(alloc, &mut bytes)?;
    due.push_back(Outcome::Out {
        r,
        bytes: Bytes::of(Vec::from_slice(alloc, &bytes)?),
    })?;
    tell_slots(alloc, r, layout, &bytes, due)
}

/// Tells the lines of a round whose body the chain has, but for who counts in it.
fn tell_rest(
    alloc: Global,
    chain: &Chain,
    body: &Body,
    due: &mut VecDeque<Outcome>,
) -> Result<(), NoMemory>
    requires { Contains (bodies chain.now) body.now }
    ensures { OnOk result ((lines : List OutcomeOf) × IsRoundTold chain.now body.now (listed_line body.now ∷ lines) × (due.new.items ≡ due.old.items ++ lines)) }
{
    if body.thin {
        due.push_back(Outcome::Thin {
            r: body.r,
            count: chain.count(body.r),
            last: chain.count(body.prev),
        })?;
        return Ok(());
    }
    match chain.layout(body.prev) {
        Some(layout) => tell_output(alloc, body.r, &body.out, layout, due),
        None => Ok(()),
    }
}

/// Tells the lines of a round whose body the chain has.
fn tell_lines(
    alloc: Global,
    chain: &Chain,
    body: &Body,
    due: &mut VecDeque<Outcome>,
) -> Result<(), NoMemory>
    requires { Contains (bodies chain.now) body.now }
    ensures { OnOk result ((lines : List OutcomeOf) × IsRoundTold chain.now body.now lines × (due.new.items ≡ due.old.items ++ lines)) }
{
    due.push_back(Outcome::Listed {
        r: body.r,
        pairs: pairs_of(alloc, body)?,
    })?;
    tell_rest(alloc, chain, body, due)
}

/// The lines of a round are due, at the first certificate that is told of with the body that the chain has of it.
pub fn tell_round(
    alloc: Global,
    chain: &Chain,
    told: &mut Marks,
    body: &Body,
    due: &mut VecDeque<Outcome>,
) -> Result<(), NoMemory>
    ensures { OnOk result ((opened : List OutcomeOf) × TellsRound chain.now (has_mark told.old) body.now (has_mark told.new) opened × (due.new.items ≡ due.old.items ++ opened)) }
{
    if told.has(body.r.0) {
        return Ok(());
    }
    match chain.body(body.r) {
        Some(held) => {
            if !held.equals(body) {
                return Ok(());
            }
            tell_lines(alloc, chain, held, due)?;
        }
        None => return Ok(()),
    }
    told.note(body.r.0)
}
