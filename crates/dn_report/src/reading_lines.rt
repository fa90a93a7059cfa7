// Reading all other lines.

ghost use Rattle.std.specs.Prelude.{◌≡◌};
ghost use Rattle.dn_lines.specs.Field.{Gives};
ghost use Rattle.dn_report.specs.Forms.{read_race_mark, read_board_mark, read_report_header, read_group_header, read_client_key_header, read_server_key_header, read_slot_key_header, read_seal_header, read_corrupt_header, read_audit_header, read_end_header};
ghost use Rattle.dn_report.specs.Lines.{read_marked, read_unmarked};

use crate::line::ReportLine;
use crate::reading_events::event_of;
use crate::reading_lists::{in_order, members_of, version_of};
use crate::reading_outcomes::outcome_of;
use crate::word_text::yes_of;
use dn_lines::{
    Fields, LineFault, bytes_of, end_of, long_number_of, number_of, server_of, slot_of,
};
use dn_wire::{ClientId, ServerId};
use std::alloc::Global;

#[tactic(auto, unfolding(crate::specs::Forms::read_race_mark))]
fn race_mark(fields: &mut Fields) -> Result<ReportLine, LineFault>
    ensures { Gives (λ x. x) result (read_race_mark fields.old) }
{
    let server = server_of(fields)?;
    let workers = number_of(fields)?;
    end_of(fields)?;
    Ok(ReportLine::Race { server, workers })
}

#[tactic(auto, unfolding(crate::specs::Forms::read_board_mark))]
fn board_mark(fields: &mut Fields) -> Result<ReportLine, LineFault>
    ensures { Gives (λ x. x) result (read_board_mark fields.old) }
{
    let server = server_of(fields)?;
    let read = long_number_of(fields)?;
    end_of(fields)?;
    Ok(ReportLine::Board { server, read })
}

#[tactic(auto, unfolding(crate::specs::Forms::read_report_header))]
fn report_header(fields: &mut Fields) -> Result<ReportLine, LineFault>
    ensures { Gives (λ x. x) result (read_report_header fields.old) }
{
    let version = version_of(fields)?;
    end_of(fields)?;
    Ok(ReportLine::Report { version })
}

#[tactic(auto, unfolding(crate::specs::Forms::read_group_header))]
fn group_header(fields: &mut Fields) -> Result<ReportLine, LineFault>
    ensures { Gives (λ x. x) result (read_group_header fields.old) }
{
    let clients = number_of(fields)?;
    let servers = number_of(fields)?;
    let ots = number_of(fields)?;
    let client_lms = number_of(fields)?;
    let server_lms = number_of(fields)?;
    end_of(fields)?;
    Ok(ReportLine::Group {
        clients,
        servers,
        ots,
        client_lms,
        server_lms,
    })
}

#[tactic(auto, unfolding(crate::specs::Forms::read_client_key_header))]
fn client_key_header(alloc: Global, fields: &mut Fields) -> Result<ReportLine, LineFault>
    ensures { Gives (λ x. x) result (read_client_key_header fields.old) }
{
    let client = ClientId(number_of(fields)?);
    let key = bytes_of(alloc, fields)?;
    end_of(fields)?;
    Ok(ReportLine::ClientKey { client, key })
}

#[tactic(auto, unfolding(crate::specs::Forms::read_server_key_header))]
fn server_key_header(alloc: Global, fields: &mut Fields) -> Result<ReportLine, LineFault>
    ensures { Gives (λ x. x) result (read_server_key_header fields.old) }
{
    let server = ServerId(number_of(fields)?);
    let key = bytes_of(alloc, fields)?;
    end_of(fields)?;
    Ok(ReportLine::ServerKey { server, key })
}

#[tactic(auto, unfolding(crate::specs::Forms::read_slot_key_header))]
fn slot_key_header(alloc: Global, fields: &mut Fields) -> Result<ReportLine, LineFault>
    ensures { Gives (λ x. x) result (read_slot_key_header fields.old) }
{
    let slot = slot_of(fields)?;
    let key = bytes_of(alloc, fields)?;
    end_of(fields)?;
    Ok(ReportLine::SlotKey { slot, key })
}

#[tactic(auto, unfolding(crate::specs::Forms::read_seal_header))]
fn seal_header(alloc: Global, fields: &mut Fields) -> Result<ReportLine, LineFault>
    ensures { Gives (λ x. x) result (read_seal_header fields.old) }
{
    let client = ClientId(number_of(fields)?);
    let server = ServerId(number_of(fields)?);
    let seal = bytes_of(alloc, fields)?;
    end_of(fields)?;
    Ok(ReportLine::Seal {
        client,
        server,
        seal,
    })
}

#[tactic(auto, unfolding(crate::specs::Forms::read_corrupt_header))]
fn corrupt_header(alloc: Global, fields: &mut Fields) -> Result<ReportLine, LineFault>
    ensures { Gives (λ x. x) result (read_corrupt_header fields.old) }
{
    let members = members_of(alloc, fields)?;
    if !in_order(members.get()) {
        return Err(LineFault::Grammar);
    }
    Ok(ReportLine::Corrupt(members))
}

#[tactic(auto, unfolding(crate::specs::Forms::read_audit_header))]
fn audit_header(fields: &mut Fields) -> Result<ReportLine, LineFault>
    ensures { Gives (λ x. x) result (read_audit_header fields.old) }
{
    let signed = yes_of(fields)?;
    let digests = yes_of(fields)?;
    let honest = yes_of(fields)?;
    end_of(fields)?;
    Ok(ReportLine::Audit {
        signed,
        digests,
        honest,
    })
}

#[tactic(auto, unfolding(crate::specs::Forms::read_end_header))]
fn end_header(fields: &mut Fields) -> Result<ReportLine, LineFault>
    ensures { Gives (λ x. x) result (read_end_header fields.old) }
{
    end_of(fields)?;
    Ok(ReportLine::End)
}

#[tactic(auto, unfolding(crate::specs::Lines::read_marked))]
/// The mark or the event line of this word behind `@`.
pub fn marked_of(alloc: Global, word: &[u8], fields: &mut Fields) -> Result<ReportLine, LineFault>
    ensures { Gives (λ x. x) result (read_marked word.now fields.old) }
{
    if word == b"race".as_slice() {
        return race_mark(fields);
    }
    if word == b"board".as_slice() {
        return board_mark(fields);
    }
    Ok(ReportLine::Event(event_of(alloc, word, fields)?))
}

#[tactic(auto, unfolding(crate::specs::Lines::read_unmarked))]
/// The line of this word, where it is not `@`.
pub fn unmarked_of(alloc: Global, word: &[u8], fields: &mut Fields) -> Result<ReportLine, LineFault>
    ensures { Gives (λ x. x) result (read_unmarked word.now fields.old) }
{
    if word == b"dissent-report".as_slice() {
        return report_header(fields);
    }
    if word == b"group".as_slice() {
        return group_header(fields);
    }
    if word == b"ckey".as_slice() {
        return client_key_header(alloc, fields);
    }
    if word == b"skey".as_slice() {
        return server_key_header(alloc, fields);
    }
    if word == b"slot".as_slice() {
        return slot_key_header(alloc, fields);
    }
    if word == b"seal".as_slice() {
        return seal_header(alloc, fields);
    }
    if word == b"corrupt".as_slice() {
        return corrupt_header(alloc, fields);
    }
    if word == b"audit".as_slice() {
        return audit_header(fields);
    }
    if word == b"end".as_slice() {
        return end_header(fields);
    }
    Ok(ReportLine::Outcome(outcome_of(alloc, word, fields)?))
}
