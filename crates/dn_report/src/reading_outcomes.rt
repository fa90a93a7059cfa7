// Reading outcome lines.

ghost use Rattle.std.specs.Prelude.{◌≡◌};
ghost use Rattle.dn_lines.specs.Field.{Gives};
ghost use Rattle.dn_report.specs.Forms.{read_post_line, read_sent_line, read_full_line, read_opened_line, read_closed_line, read_abandoned_line, read_told_line, read_spoiled_line, read_certified_line, read_held_line, read_listed_line, read_out_line, read_thin_line, read_message_line, read_garbled_line, read_ignored_line, read_early_line, read_taken_line, read_noted_line, read_kept_line, read_dropped_line, read_unopened_line, read_blame_line, read_silent_line};
ghost use Rattle.dn_report.specs.Lines.{read_outcome};

use crate::outcome::Outcome;
use crate::reading_lists::pairs_of;
use crate::word_text::{blame_of, ignored_of, spoil_of, told_of, unopened_of};
use dn_lines::{
    Fields, LineFault, bytes_of, client_of, end_of, long_number_of, member_of, number_of, round_of,
    server_of, slot_of,
};
use std::alloc::Global;

#[tactic(auto, unfolding(crate::specs::Forms::read_post_line))]
fn post_line(alloc: Global, fields: &mut Fields) -> Result<Outcome, LineFault>
    ensures { Gives (λ x. x) result (read_post_line fields.old) }
{
    let payload = long_number_of(fields)?;
    let by = member_of(fields)?;
    let bytes = bytes_of(alloc, fields)?;
    end_of(fields)?;
    Ok(Outcome::Post { payload, by, bytes })
}

#[tactic(auto, unfolding(crate::specs::Forms::read_sent_line))]
fn sent_line(fields: &mut Fields) -> Result<Outcome, LineFault>
    ensures { Gives (λ x. x) result (read_sent_line fields.old) }
{
    let id = long_number_of(fields)?;
    let payload = long_number_of(fields)?;
    let to = member_of(fields)?;
    end_of(fields)?;
    Ok(Outcome::Sent { id, payload, to })
}

#[tactic(auto, unfolding(crate::specs::Forms::read_full_line))]
fn full_line(fields: &mut Fields) -> Result<Outcome, LineFault>
    ensures { Gives (λ x. x) result (read_full_line fields.old) }
{
    let payload = long_number_of(fields)?;
    let to = member_of(fields)?;
    end_of(fields)?;
    Ok(Outcome::Full { payload, to })
}

#[tactic(auto, unfolding(crate::specs::Forms::read_opened_line))]
fn opened_line(fields: &mut Fields) -> Result<Outcome, LineFault>
    ensures { Gives (λ x. x) result (read_opened_line fields.old) }
{
    let server = server_of(fields)?;
    let r = round_of(fields)?;
    let prev = round_of(fields)?;
    end_of(fields)?;
    Ok(Outcome::Opened { server, r, prev })
}

#[tactic(auto, unfolding(crate::specs::Forms::read_closed_line))]
fn closed_line(fields: &mut Fields) -> Result<Outcome, LineFault>
    ensures { Gives (λ x. x) result (read_closed_line fields.old) }
{
    let server = server_of(fields)?;
    let r = round_of(fields)?;
    let count = number_of(fields)?;
    end_of(fields)?;
    Ok(Outcome::Closed { server, r, count })
}

#[tactic(auto, unfolding(crate::specs::Forms::read_abandoned_line))]
fn abandoned_line(fields: &mut Fields) -> Result<Outcome, LineFault>
    ensures { Gives (λ x. x) result (read_abandoned_line fields.old) }
{
    let server = server_of(fields)?;
    let r = round_of(fields)?;
    end_of(fields)?;
    Ok(Outcome::Abandoned { server, r })
}

#[tactic(auto, unfolding(crate::specs::Forms::read_told_line))]
fn told_line(fields: &mut Fields) -> Result<Outcome, LineFault>
    ensures { Gives (λ x. x) result (read_told_line fields.old) }
{
    let client = client_of(fields)?;
    let server = server_of(fields)?;
    let r = round_of(fields)?;
    let told = told_of(fields)?;
    end_of(fields)?;
    Ok(Outcome::Told {
        client,
        server,
        r,
        told,
    })
}

#[tactic(auto, unfolding(crate::specs::Forms::read_spoiled_line))]
fn spoiled_line(fields: &mut Fields) -> Result<Outcome, LineFault>
    ensures { Gives (λ x. x) result (read_spoiled_line fields.old) }
{
    let server = server_of(fields)?;
    let r = round_of(fields)?;
    let by = server_of(fields)?;
    let reason = spoil_of(fields)?;
    end_of(fields)?;
    Ok(Outcome::Spoiled {
        server,
        r,
        by,
        reason,
    })
}

#[tactic(auto, unfolding(crate::specs::Forms::read_certified_line))]
fn certified_line(fields: &mut Fields) -> Result<Outcome, LineFault>
    ensures { Gives (λ x. x) result (read_certified_line fields.old) }
{
    let server = server_of(fields)?;
    let r = round_of(fields)?;
    end_of(fields)?;
    Ok(Outcome::Certified { server, r })
}

#[tactic(auto, unfolding(crate::specs::Forms::read_held_line))]
fn held_line(fields: &mut Fields) -> Result<Outcome, LineFault>
    ensures { Gives (λ x. x) result (read_held_line fields.old) }
{
    let member = member_of(fields)?;
    let r = round_of(fields)?;
    end_of(fields)?;
    Ok(Outcome::Held { member, r })
}

#[tactic(auto, unfolding(crate::specs::Forms::read_listed_line))]
fn listed_line(alloc: Global, fields: &mut Fields) -> Result<Outcome, LineFault>
    ensures { Gives (λ x. x) result (read_listed_line fields.old) }
{
    let r = round_of(fields)?;
    let pairs = pairs_of(alloc, fields)?;
    Ok(Outcome::Listed { r, pairs })
}

#[tactic(auto, unfolding(crate::specs::Forms::read_out_line))]
fn out_line(alloc: Global, fields: &mut Fields) -> Result<Outcome, LineFault>
    ensures { Gives (λ x. x) result (read_out_line fields.old) }
{
    let r = round_of(fields)?;
    let bytes = bytes_of(alloc, fields)?;
    end_of(fields)?;
    Ok(Outcome::Out { r, bytes })
}

#[tactic(auto, unfolding(crate::specs::Forms::read_thin_line))]
fn thin_line(fields: &mut Fields) -> Result<Outcome, LineFault>
    ensures { Gives (λ x. x) result (read_thin_line fields.old) }
{
    let r = round_of(fields)?;
    let count = number_of(fields)?;
    let last = number_of(fields)?;
    end_of(fields)?;
    Ok(Outcome::Thin { r, count, last })
}

#[tactic(auto, unfolding(crate::specs::Forms::read_message_line))]
fn message_line(alloc: Global, fields: &mut Fields) -> Result<Outcome, LineFault>
    ensures { Gives (λ x. x) result (read_message_line fields.old) }
{
    let r = round_of(fields)?;
    let slot = slot_of(fields)?;
    let text = bytes_of(alloc, fields)?;
    end_of(fields)?;
    Ok(Outcome::Message { r, slot, text })
}

#[tactic(auto, unfolding(crate::specs::Forms::read_garbled_line))]
fn garbled_line(fields: &mut Fields) -> Result<Outcome, LineFault>
    ensures { Gives (λ x. x) result (read_garbled_line fields.old) }
{
    let r = round_of(fields)?;
    let slot = slot_of(fields)?;
    end_of(fields)?;
    Ok(Outcome::Garbled { r, slot })
}

#[tactic(auto, unfolding(crate::specs::Forms::read_ignored_line))]
fn ignored_line(fields: &mut Fields) -> Result<Outcome, LineFault>
    ensures { Gives (λ x. x) result (read_ignored_line fields.old) }
{
    let word = ignored_of(fields)?;
    end_of(fields)?;
    Ok(Outcome::Ignored(word))
}

#[tactic(auto, unfolding(crate::specs::Forms::read_early_line))]
fn early_line(fields: &mut Fields) -> Result<Outcome, LineFault>
    ensures { Gives (λ x. x) result (read_early_line fields.old) }
{
    end_of(fields)?;
    Ok(Outcome::Early)
}

#[tactic(auto, unfolding(crate::specs::Forms::read_taken_line))]
fn taken_line(fields: &mut Fields) -> Result<Outcome, LineFault>
    ensures { Gives (λ x. x) result (read_taken_line fields.old) }
{
    end_of(fields)?;
    Ok(Outcome::Taken)
}

#[tactic(auto, unfolding(crate::specs::Forms::read_noted_line))]
fn noted_line(fields: &mut Fields) -> Result<Outcome, LineFault>
    ensures { Gives (λ x. x) result (read_noted_line fields.old) }
{
    end_of(fields)?;
    Ok(Outcome::Noted)
}

#[tactic(auto, unfolding(crate::specs::Forms::read_kept_line))]
fn kept_line(fields: &mut Fields) -> Result<Outcome, LineFault>
    ensures { Gives (λ x. x) result (read_kept_line fields.old) }
{
    end_of(fields)?;
    Ok(Outcome::Kept)
}

#[tactic(auto, unfolding(crate::specs::Forms::read_dropped_line))]
fn dropped_line(fields: &mut Fields) -> Result<Outcome, LineFault>
    ensures { Gives (λ x. x) result (read_dropped_line fields.old) }
{
    let count = number_of(fields)?;
    end_of(fields)?;
    Ok(Outcome::Dropped { count })
}

#[tactic(auto, unfolding(crate::specs::Forms::read_unopened_line))]
fn unopened_line(fields: &mut Fields) -> Result<Outcome, LineFault>
    ensures { Gives (λ x. x) result (read_unopened_line fields.old) }
{
    let word = unopened_of(fields)?;
    end_of(fields)?;
    Ok(Outcome::Unopened(word))
}

#[tactic(auto, unfolding(crate::specs::Forms::read_blame_line))]
fn blame_line(fields: &mut Fields) -> Result<Outcome, LineFault>
    ensures { Gives (λ x. x) result (read_blame_line fields.old) }
{
    let member = member_of(fields)?;
    let reason = blame_of(fields)?;
    end_of(fields)?;
    Ok(Outcome::Blame { member, reason })
}

#[tactic(auto, unfolding(crate::specs::Forms::read_silent_line))]
fn silent_line(fields: &mut Fields) -> Result<Outcome, LineFault>
    ensures { Gives (λ x. x) result (read_silent_line fields.old) }
{
    let member = member_of(fields)?;
    end_of(fields)?;
    Ok(Outcome::Silent { member })
}

#[tactic(auto, unfolding(crate::specs::Lines::read_outcome))]
/// The outcome line of this word and the fields behind it.
pub fn outcome_of(alloc: Global, word: &[u8], fields: &mut Fields) -> Result<Outcome, LineFault>
    ensures { Gives (λ x. x) result (read_outcome word.now fields.old) }
{
    if word == b"post".as_slice() {
        return post_line(alloc, fields);
    }
    if word == b"sent".as_slice() {
        return sent_line(fields);
    }
    if word == b"full".as_slice() {
        return full_line(fields);
    }
    if word == b"opened".as_slice() {
        return opened_line(fields);
    }
    if word == b"closed".as_slice() {
        return closed_line(fields);
    }
    if word == b"abandoned".as_slice() {
        return abandoned_line(fields);
    }
    if word == b"told".as_slice() {
        return told_line(fields);
    }
    if word == b"spoiled".as_slice() {
        return spoiled_line(fields);
    }
    if word == b"certified".as_slice() {
        return certified_line(fields);
    }
    if word == b"held".as_slice() {
        return held_line(fields);
    }
    if word == b"listed".as_slice() {
        return listed_line(alloc, fields);
    }
    if word == b"out".as_slice() {
        return out_line(alloc, fields);
    }
    if word == b"thin".as_slice() {
        return thin_line(fields);
    }
    if word == b"message".as_slice() {
        return message_line(alloc, fields);
    }
    if word == b"garbled".as_slice() {
        return garbled_line(fields);
    }
    if word == b"ignored".as_slice() {
        return ignored_line(fields);
    }
    if word == b"early".as_slice() {
        return early_line(fields);
    }
    if word == b"taken".as_slice() {
        return taken_line(fields);
    }
    if word == b"noted".as_slice() {
        return noted_line(fields);
    }
    if word == b"kept".as_slice() {
        return kept_line(fields);
    }
    if word == b"dropped".as_slice() {
        return dropped_line(fields);
    }
    if word == b"unopened".as_slice() {
        return unopened_line(fields);
    }
    if word == b"blame".as_slice() {
        return blame_line(fields);
    }
    if word == b"silent".as_slice() {
        return silent_line(fields);
    }
    Err(LineFault::Grammar)
}
