// The lines in front of a report: the group, its public keys and the commitments to its seeds.
ghost use Rattle.std.specs.Prelude.{◌≡◌, ◌++◌, ◌∷◌, [], ◌<◌, map, length, IfOk, OnOk};
ghost use Rattle.std.specs.List.{flat_map};
ghost use Rattle.dn_report.specs.Lines.{line_text};
ghost use Rattle.dn_run_report.specs.Report.{bytes_at, numbers_below, client_key_line, server_key_line, slot_key_line, seal_line, seal_lines_of, head_lines, lines_text};

use dn_memory::NoMemory;
use dn_report::{ReportLine, print_line};
use dn_roster::{GroupSpec, Roster};
use dn_wire::{Bytes, ClientId, MemberList, ServerId, SignerId, SlotId};
use std::alloc::Global;

/// The line of a client's key.
fn put_client_key(
    alloc: Global,
    roster: &Roster,
    client: ClientId,
    out: &mut Vec<u8>,
) -> Result<(), NoMemory>
    ensures { OnOk result (out.new.items ≡ out.old.items ++ line_text (client_key_line roster.now client.0)) }
{
    let key = roster.key(SignerId::Client(client)).unwrap_or(&[]);
    let key = Bytes::of(Vec::from_slice(alloc, key)?);
    print_line(&ReportLine::ClientKey { client, key }, out)
}

/// The line of a server's key.
fn put_server_key(
    alloc: Global,
    roster: &Roster,
    server: ServerId,
    out: &mut Vec<u8>,
) -> Result<(), NoMemory>
    ensures { OnOk result (out.new.items ≡ out.old.items ++ line_text (server_key_line roster.now server.0)) }
{
    let key = roster.key(SignerId::Server(server)).unwrap_or(&[]);
    let key = Bytes::of(Vec::from_slice(alloc, key)?);
    print_line(&ReportLine::ServerKey { server, key }, out)
}

/// The line of a slot's key.
fn put_slot_key(
    alloc: Global,
    roster: &Roster,
    slot: SlotId,
    out: &mut Vec<u8>,
) -> Result<(), NoMemory>
    ensures { OnOk result (out.new.items ≡ out.old.items ++ line_text (slot_key_line roster.now slot.0)) }
{
    let key = roster.key(SignerId::Slot(slot)).unwrap_or(&[]);
    let key = Bytes::of(Vec::from_slice(alloc, key)?);
    print_line(&ReportLine::SlotKey { slot, key }, out)
}

/// The line of the commitment to a pair's seed.
fn put_seal(
    alloc: Global,
    roster: &Roster,
    client: ClientId,
    server: ServerId,
    out: &mut Vec<u8>,
) -> Result<(), NoMemory>
    requires client { client.0 < length roster.now.clients }
    requires server { server.0 < length roster.now.servers }
    ensures { OnOk result (out.new.items ≡ out.old.items ++ line_text (seal_line roster.now client.0 server.0)) }
{
    let seal = roster.commitment(client, server);
    let seal = Bytes::of(Vec::from_slice(alloc, &seal)?);
    print_line(
        &ReportLine::Seal {
            client,
            server,
            seal,
        },
        out,
    )
}

fn put_client_keys(alloc: Global, roster: &Roster, out: &mut Vec<u8>) -> Result<(), NoMemory>
    ensures { OnOk result (out.new.items ≡ out.old.items ++ lines_text (map (client_key_line roster.now) (numbers_below (length roster.now.clients)))) }
{
    for i in 0..roster.clients() {
        put_client_key(alloc, roster, ClientId(i), out)?;
    }
    Ok(())
}

fn put_server_keys(alloc: Global, roster: &Roster, out: &mut Vec<u8>) -> Result<(), NoMemory>
    ensures { OnOk result (out.new.items ≡ out.old.items ++ lines_text (map (server_key_line roster.now) (numbers_below (length roster.now.servers)))) }
{
    for j in 0..roster.servers() {
        put_server_key(alloc, roster, ServerId(j), out)?;
    }
    Ok(())
}

fn put_slot_keys(alloc: Global, roster: &Roster, out: &mut Vec<u8>) -> Result<(), NoMemory>
    ensures { OnOk result (out.new.items ≡ out.old.items ++ lines_text (map (slot_key_line roster.now) (numbers_below (length roster.now.clients)))) }
{
    for s in 0..roster.clients() {
        put_slot_key(alloc, roster, SlotId(s), out)?;
    }
    Ok(())
}

/// The commitments of one client.
fn put_seals_of(
    alloc: Global,
    roster: &Roster,
    client: ClientId,
    out: &mut Vec<u8>,
) -> Result<(), NoMemory>
    requires { client.0 < length roster.now.clients }
    ensures { OnOk result (out.new.items ≡ out.old.items ++ lines_text (seal_lines_of roster.now client.0)) }
{
    for j in 0..roster.servers() {
        put_seal(alloc, roster, client, ServerId(j), out)?;
    }
    Ok(())
}

fn put_seals(alloc: Global, roster: &Roster, out: &mut Vec<u8>) -> Result<(), NoMemory>
    ensures { OnOk result (out.new.items ≡ out.old.items ++ lines_text (flat_map (seal_lines_of roster.now) (numbers_below (length roster.now.clients)))) }
{
    for i in 0..roster.clients() {
        put_seals_of(alloc, roster, ClientId(i), out)?;
    }
    Ok(())
}

/// The first two lines: the version and the group.
fn put_group(group: &GroupSpec, out: &mut Vec<u8>) -> Result<(), NoMemory>
    ensures { OnOk result (out.new.items ≡ out.old.items ++ lines_text (ReportLine.Report group.now.version ∷ ReportLine.Group group.now.clients group.now.servers group.now.ots group.now.client_lms group.now.server_lms ∷ [])) }
{
    print_line(
        &ReportLine::Report {
            version: group.version,
        },
        out,
    )?;
    print_line(
        &ReportLine::Group {
            clients: group.clients,
            servers: group.servers,
            ots: group.ots,
            client_lms: group.client_lms,
            server_lms: group.server_lms,
        },
        out,
    )
}

/// The line of the corrupt members.
fn put_corrupt(alloc: Global, corrupt: &MemberList, out: &mut Vec<u8>) -> Result<(), NoMemory>
    ensures { OnOk result (out.new.items ≡ out.old.items ++ lines_text (ReportLine.Corrupt corrupt.now ∷ [])) }
{
    print_line(&ReportLine::Corrupt(corrupt.copy(alloc)?), out)
}

/// Appends the lines in front of a report of a group with these corrupt members.
pub fn put_head(
    alloc: Global,
    group: &GroupSpec,
    roster: &Roster,
    corrupt: &MemberList,
    out: &mut Vec<u8>,
) -> Result<(), NoMemory>
    ensures { OnOk result (out.new.items ≡ out.old.items ++ lines_text (head_lines group.now roster.now corrupt.now)) }
{
    put_group(group, out)?;
    put_client_keys(alloc, roster, out)?;
    put_server_keys(alloc, roster, out)?;
    put_slot_keys(alloc, roster, out)?;
    put_seals(alloc, roster, out)?;
    put_corrupt(alloc, corrupt, out)?;
    Ok(())
}
