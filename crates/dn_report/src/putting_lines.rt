// Printing lines.

ghost use Rattle.std.specs.Prelude.{◌≡◌, ◌++◌, ◌∷◌, [], codes, OnOk};
ghost use Rattle.dn_lines.specs.Form.{spaced};
ghost use Rattle.dn_report.specs.Forms.{race_mark, board_mark, report_header, group_header, client_key_header, server_key_header, slot_key_header, seal_header, audit_header};
ghost use Rattle.dn_report.specs.Lines.{event_fields, line_fields};

use crate::line::{EventLine, ReportLine};
use crate::putting_events::put_event;
use crate::putting_lists::put_corrupt_header;
use crate::putting_outcomes::put_outcome;
use crate::word_text::yes_text;
use dn_lines::{add_hex, add_number, add_server, add_text};
use dn_memory::NoMemory;
use dn_wire::{Bytes, ClientId, ServerId, SlotId, put_bytes};

fn put_race_mark(out: &mut Vec<u8>, server: ServerId, workers: u32) -> Result<(), NoMemory>
    ensures { OnOk result (out.new.items ≡ out.old.items ++ spaced (codes "@" ∷ codes "race" ∷ race_mark.spell (server, workers))) }
{
    put_bytes(out, b"@ race")?;
    add_server(out, server)?;
    add_number(out, u64::from(workers))
}

fn put_board_mark(out: &mut Vec<u8>, server: ServerId, read: u64) -> Result<(), NoMemory>
    ensures { OnOk result (out.new.items ≡ out.old.items ++ spaced (codes "@" ∷ codes "board" ∷ board_mark.spell (server, read))) }
{
    put_bytes(out, b"@ board")?;
    add_server(out, server)?;
    add_number(out, read)
}

fn put_report_header(out: &mut Vec<u8>, version: u8) -> Result<(), NoMemory>
    ensures { OnOk result (out.new.items ≡ out.old.items ++ spaced (codes "dissent-report" ∷ report_header.spell version)) }
{
    put_bytes(out, b"dissent-report")?;
    add_number(out, u64::from(version))
}

fn put_group_header(
    out: &mut Vec<u8>,
    clients: u32,
    servers: u32,
    ots: u32,
    client_lms: u32,
    server_lms: u32,
) -> Result<(), NoMemory>
    ensures { OnOk result (out.new.items ≡ out.old.items ++ spaced (codes "group" ∷ group_header.spell (clients, (servers, (ots, (client_lms, server_lms)))))) }
{
    put_bytes(out, b"group")?;
    add_number(out, u64::from(clients))?;
    add_number(out, u64::from(servers))?;
    add_number(out, u64::from(ots))?;
    add_number(out, u64::from(client_lms))?;
    add_number(out, u64::from(server_lms))
}

fn put_client_key_header(out: &mut Vec<u8>, client: ClientId, key: &Bytes) -> Result<(), NoMemory>
    ensures { OnOk result (out.new.items ≡ out.old.items ++ spaced (codes "ckey" ∷ client_key_header.spell (client, key.now))) }
{
    put_bytes(out, b"ckey")?;
    add_number(out, u64::from(client.0))?;
    add_hex(out, key.get())
}

fn put_server_key_header(out: &mut Vec<u8>, server: ServerId, key: &Bytes) -> Result<(), NoMemory>
    ensures { OnOk result (out.new.items ≡ out.old.items ++ spaced (codes "skey" ∷ server_key_header.spell (server, key.now))) }
{
    put_bytes(out, b"skey")?;
    add_number(out, u64::from(server.0))?;
    add_hex(out, key.get())
}

fn put_slot_key_header(out: &mut Vec<u8>, slot: SlotId, key: &Bytes) -> Result<(), NoMemory>
    ensures { OnOk result (out.new.items ≡ out.old.items ++ spaced (codes "slot" ∷ slot_key_header.spell (slot, key.now))) }
{
    put_bytes(out, b"slot")?;
    add_number(out, u64::from(slot.0))?;
    add_hex(out, key.get())
}

fn put_seal_header(
    out: &mut Vec<u8>,
    client: ClientId,
    server: ServerId,
    seal: &Bytes,
) -> Result<(), NoMemory>
    ensures { OnOk result (out.new.items ≡ out.old.items ++ spaced (codes "seal" ∷ seal_header.spell (client, (server, seal.now)))) }
{
    put_bytes(out, b"seal")?;
    add_number(out, u64::from(client.0))?;
    add_number(out, u64::from(server.0))?;
    add_hex(out, seal.get())
}

fn put_audit_header(
    out: &mut Vec<u8>,
    signed: bool,
    digests: bool,
    honest: bool,
) -> Result<(), NoMemory>
    ensures { OnOk result (out.new.items ≡ out.old.items ++ spaced (codes "audit" ∷ audit_header.spell (signed, (digests, honest)))) }
{
    put_bytes(out, b"audit")?;
    add_text(out, yes_text(signed))?;
    add_text(out, yes_text(digests))?;
    add_text(out, yes_text(honest))
}

fn put_marked(out: &mut Vec<u8>, event: &EventLine) -> Result<(), NoMemory>
    ensures { OnOk result (out.new.items ≡ out.old.items ++ spaced (codes "@" ∷ event_fields event.now)) }
{
    put_bytes(out, b"@ ")?;
    put_event(out, event)
}

/// Appends the fields of a line, with one blank between them.
pub fn put_line(out: &mut Vec<u8>, line: &ReportLine) -> Result<(), NoMemory>
    ensures { OnOk result (out.new.items ≡ out.old.items ++ spaced (line_fields line.now)) }
{
    match line {
        ReportLine::Report { version } => put_report_header(out, *version),
        ReportLine::Group {
            clients,
            servers,
            ots,
            client_lms,
            server_lms,
        } => put_group_header(out, *clients, *servers, *ots, *client_lms, *server_lms),
        ReportLine::ClientKey { client, key } => put_client_key_header(out, *client, key),
        ReportLine::ServerKey { server, key } => put_server_key_header(out, *server, key),
        ReportLine::SlotKey { slot, key } => put_slot_key_header(out, *slot, key),
        ReportLine::Seal {
            client,
            server,
            seal,
        } => put_seal_header(out, *client, *server, seal),
        ReportLine::Corrupt(members) => put_corrupt_header(out, members.get()),
        ReportLine::Audit {
            signed,
            digests,
            honest,
        } => put_audit_header(out, *signed, *digests, *honest),
        ReportLine::End => put_bytes(out, b"end"),
        ReportLine::Race { server, workers } => put_race_mark(out, *server, *workers),
        ReportLine::Board { server, read } => put_board_mark(out, *server, *read),
        ReportLine::Event(event) => put_marked(out, event),
        ReportLine::Outcome(outcome) => put_outcome(out, outcome),
    }
}
