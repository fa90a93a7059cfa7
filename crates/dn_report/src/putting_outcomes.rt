// Printing outcome lines.

ghost use Rattle.std.specs.Prelude.{◌≡◌, ◌++◌, ◌∷◌, [], codes, OnOk};
ghost use Rattle.dn_lines.specs.Form.{spaced};
ghost use Rattle.dn_report.specs.Forms.{post_line, sent_line, full_line, opened_line, closed_line, abandoned_line, told_line, spoiled_line, certified_line, held_line, out_line, thin_line, message_line, garbled_line, ignored_line, dropped_line, unopened_line, blame_line, silent_line};
ghost use Rattle.dn_report.specs.Lines.{outcome_fields};

use crate::outcome::Outcome;
use crate::putting_lists::put_listed;
use crate::word_text::{blame_text, ignored_text, spoil_text, told_text, unopened_text};
use crate::words::{BlameWord, IgnoredWord, SpoilWord, UnopenedWord};
use dn_lines::{add_client, add_hex, add_member, add_number, add_server, add_text};
use dn_memory::NoMemory;
use dn_told::WindowTold;
use dn_wire::{Bytes, ClientId, Member, Round, ServerId, SlotId, put_bytes};

fn put_post_line(out: &mut Vec<u8>, payload: u64, by: Member, bytes: &Bytes) -> Result<(), NoMemory>
    ensures { OnOk result (out.new.items ≡ out.old.items ++ spaced (codes "post" ∷ post_line.spell (payload, (by, bytes.now)))) }
{
    put_bytes(out, b"post")?;
    add_number(out, payload)?;
    add_member(out, by)?;
    add_hex(out, bytes.get())
}

fn put_sent_line(out: &mut Vec<u8>, id: u64, payload: u64, to: Member) -> Result<(), NoMemory>
    ensures { OnOk result (out.new.items ≡ out.old.items ++ spaced (codes "sent" ∷ sent_line.spell (id, (payload, to)))) }
{
    put_bytes(out, b"sent")?;
    add_number(out, id)?;
    add_number(out, payload)?;
    add_member(out, to)
}

fn put_full_line(out: &mut Vec<u8>, payload: u64, to: Member) -> Result<(), NoMemory>
    ensures { OnOk result (out.new.items ≡ out.old.items ++ spaced (codes "full" ∷ full_line.spell (payload, to))) }
{
    put_bytes(out, b"full")?;
    add_number(out, payload)?;
    add_member(out, to)
}

fn put_opened_line(
    out: &mut Vec<u8>,
    server: ServerId,
    r: Round,
    prev: Round,
) -> Result<(), NoMemory>
    ensures { OnOk result (out.new.items ≡ out.old.items ++ spaced (codes "opened" ∷ opened_line.spell (server, (r, prev)))) }
{
    put_bytes(out, b"opened")?;
    add_server(out, server)?;
    add_number(out, r.0)?;
    add_number(out, prev.0)
}

fn put_closed_line(
    out: &mut Vec<u8>,
    server: ServerId,
    r: Round,
    count: u32,
) -> Result<(), NoMemory>
    ensures { OnOk result (out.new.items ≡ out.old.items ++ spaced (codes "closed" ∷ closed_line.spell (server, (r, count)))) }
{
    put_bytes(out, b"closed")?;
    add_server(out, server)?;
    add_number(out, r.0)?;
    add_number(out, u64::from(count))
}

fn put_abandoned_line(out: &mut Vec<u8>, server: ServerId, r: Round) -> Result<(), NoMemory>
    ensures { OnOk result (out.new.items ≡ out.old.items ++ spaced (codes "abandoned" ∷ abandoned_line.spell (server, r))) }
{
    put_bytes(out, b"abandoned")?;
    add_server(out, server)?;
    add_number(out, r.0)
}

fn put_told_line(
    out: &mut Vec<u8>,
    client: ClientId,
    server: ServerId,
    r: Round,
    told: WindowTold,
) -> Result<(), NoMemory>
    ensures { OnOk result (out.new.items ≡ out.old.items ++ spaced (codes "told" ∷ told_line.spell (client, (server, (r, told))))) }
{
    put_bytes(out, b"told")?;
    add_client(out, client)?;
    add_server(out, server)?;
    add_number(out, r.0)?;
    add_text(out, told_text(told))
}

fn put_spoiled_line(
    out: &mut Vec<u8>,
    server: ServerId,
    r: Round,
    by: ServerId,
    reason: SpoilWord,
) -> Result<(), NoMemory>
    ensures { OnOk result (out.new.items ≡ out.old.items ++ spaced (codes "spoiled" ∷ spoiled_line.spell (server, (r, (by, reason))))) }
{
    put_bytes(out, b"spoiled")?;
    add_server(out, server)?;
    add_number(out, r.0)?;
    add_server(out, by)?;
    add_text(out, spoil_text(reason))
}

fn put_certified_line(out: &mut Vec<u8>, server: ServerId, r: Round) -> Result<(), NoMemory>
    ensures { OnOk result (out.new.items ≡ out.old.items ++ spaced (codes "certified" ∷ certified_line.spell (server, r))) }
{
    put_bytes(out, b"certified")?;
    add_server(out, server)?;
    add_number(out, r.0)
}

fn put_held_line(out: &mut Vec<u8>, member: Member, r: Round) -> Result<(), NoMemory>
    ensures { OnOk result (out.new.items ≡ out.old.items ++ spaced (codes "held" ∷ held_line.spell (member, r))) }
{
    put_bytes(out, b"held")?;
    add_member(out, member)?;
    add_number(out, r.0)
}

fn put_out_line(out: &mut Vec<u8>, r: Round, bytes: &Bytes) -> Result<(), NoMemory>
    ensures { OnOk result (out.new.items ≡ out.old.items ++ spaced (codes "out" ∷ out_line.spell (r, bytes.now))) }
{
    put_bytes(out, b"out")?;
    add_number(out, r.0)?;
    add_hex(out, bytes.get())
}

fn put_thin_line(out: &mut Vec<u8>, r: Round, count: u32, last: u32) -> Result<(), NoMemory>
    ensures { OnOk result (out.new.items ≡ out.old.items ++ spaced (codes "thin" ∷ thin_line.spell (r, (count, last)))) }
{
    put_bytes(out, b"thin")?;
    add_number(out, r.0)?;
    add_number(out, u64::from(count))?;
    add_number(out, u64::from(last))
}

fn put_message_line(out: &mut Vec<u8>, r: Round, slot: SlotId, text: &Bytes) -> Result<(), NoMemory>
    ensures { OnOk result (out.new.items ≡ out.old.items ++ spaced (codes "message" ∷ message_line.spell (r, (slot, text.now)))) }
{
    put_bytes(out, b"message")?;
    add_number(out, r.0)?;
    add_number(out, u64::from(slot.0))?;
    add_hex(out, text.get())
}

fn put_garbled_line(out: &mut Vec<u8>, r: Round, slot: SlotId) -> Result<(), NoMemory>
    ensures { OnOk result (out.new.items ≡ out.old.items ++ spaced (codes "garbled" ∷ garbled_line.spell (r, slot))) }
{
    put_bytes(out, b"garbled")?;
    add_number(out, r.0)?;
    add_number(out, u64::from(slot.0))
}

fn put_ignored_line(out: &mut Vec<u8>, word: IgnoredWord) -> Result<(), NoMemory>
    ensures { OnOk result (out.new.items ≡ out.old.items ++ spaced (codes "ignored" ∷ ignored_line.spell word)) }
{
    put_bytes(out, b"ignored")?;
    add_text(out, ignored_text(word))
}

fn put_dropped_line(out: &mut Vec<u8>, count: u32) -> Result<(), NoMemory>
    ensures { OnOk result (out.new.items ≡ out.old.items ++ spaced (codes "dropped" ∷ dropped_line.spell count)) }
{
    put_bytes(out, b"dropped")?;
    add_number(out, u64::from(count))
}

fn put_unopened_line(out: &mut Vec<u8>, word: UnopenedWord) -> Result<(), NoMemory>
    ensures { OnOk result (out.new.items ≡ out.old.items ++ spaced (codes "unopened" ∷ unopened_line.spell word)) }
{
    put_bytes(out, b"unopened")?;
    add_text(out, unopened_text(word))
}

fn put_blame_line(out: &mut Vec<u8>, member: Member, reason: BlameWord) -> Result<(), NoMemory>
    ensures { OnOk result (out.new.items ≡ out.old.items ++ spaced (codes "blame" ∷ blame_line.spell (member, reason))) }
{
    put_bytes(out, b"blame")?;
    add_member(out, member)?;
    add_text(out, blame_text(reason))
}

fn put_silent_line(out: &mut Vec<u8>, member: Member) -> Result<(), NoMemory>
    ensures { OnOk result (out.new.items ≡ out.old.items ++ spaced (codes "silent" ∷ silent_line.spell member)) }
{
    put_bytes(out, b"silent")?;
    add_member(out, member)
}

/// Appends the fields of an outcome line, with one blank between them.
pub fn put_outcome(out: &mut Vec<u8>, outcome: &Outcome) -> Result<(), NoMemory>
    ensures { OnOk result (out.new.items ≡ out.old.items ++ spaced (outcome_fields outcome.now)) }
{
    match outcome {
        Outcome::Post { payload, by, bytes } => put_post_line(out, *payload, *by, bytes),
        Outcome::Sent { id, payload, to } => put_sent_line(out, *id, *payload, *to),
        Outcome::Full { payload, to } => put_full_line(out, *payload, *to),
        Outcome::Opened { server, r, prev } => put_opened_line(out, *server, *r, *prev),
        Outcome::Closed { server, r, count } => put_closed_line(out, *server, *r, *count),
        Outcome::Abandoned { server, r } => put_abandoned_line(out, *server, *r),
        Outcome::Told {
            client,
            server,
            r,
            told,
        } => put_told_line(out, *client, *server, *r, *told),
        Outcome::Spoiled {
            server,
            r,
            by,
            reason,
        } => put_spoiled_line(out, *server, *r, *by, *reason),
        Outcome::Certified { server, r } => put_certified_line(out, *server, *r),
        Outcome::Held { member, r } => put_held_line(out, *member, *r),
        Outcome::Listed { r, pairs } => put_listed(out, *r, pairs.get()),
        Outcome::Out { r, bytes } => put_out_line(out, *r, bytes),
        Outcome::Thin { r, count, last } => put_thin_line(out, *r, *count, *last),
        Outcome::Message { r, slot, text } => put_message_line(out, *r, *slot, text),
        Outcome::Garbled { r, slot } => put_garbled_line(out, *r, *slot),
        Outcome::Ignored(word) => put_ignored_line(out, *word),
        Outcome::Early => put_bytes(out, b"early"),
        Outcome::Taken => put_bytes(out, b"taken"),
        Outcome::Noted => put_bytes(out, b"noted"),
        Outcome::Kept => put_bytes(out, b"kept"),
        Outcome::Dropped { count } => put_dropped_line(out, *count),
        Outcome::Unopened(word) => put_unopened_line(out, *word),
        Outcome::Blame { member, reason } => put_blame_line(out, *member, *reason),
        Outcome::Silent { member } => put_silent_line(out, *member),
    }
}
