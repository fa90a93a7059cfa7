// Printing event lines.

ghost use Rattle.std.specs.Prelude.{◌≡◌, ◌++◌, ◌∷◌, [], codes, OnOk};
ghost use Rattle.dn_lines.specs.Form.{spaced};
ghost use Rattle.dn_report.specs.Forms.{say_event, open_event, submit_event, deliver_event, lose_event, close_event, abandon_event, leave_event, accuse_event, judge_event, inject_event};
ghost use Rattle.dn_report.specs.Lines.{event_fields};

use crate::line::EventLine;
use dn_lines::{add_client, add_hex, add_member, add_number, add_server};
use dn_memory::NoMemory;
use dn_wire::{Bytes, ClientId, Member, Round, ServerId, put_bytes};

fn put_say_event(out: &mut Vec<u8>, client: ClientId, text: &Bytes) -> Result<(), NoMemory>
    ensures { OnOk result (out.new.items ≡ out.old.items ++ spaced (codes "say" ∷ say_event.spell (client, text.now))) }
{
    put_bytes(out, b"say")?;
    add_client(out, client)?;
    add_hex(out, text.get())
}

fn put_open_event(out: &mut Vec<u8>, server: ServerId, r: Round) -> Result<(), NoMemory>
    ensures { OnOk result (out.new.items ≡ out.old.items ++ spaced (codes "open" ∷ open_event.spell (server, r))) }
{
    put_bytes(out, b"open")?;
    add_server(out, server)?;
    add_number(out, r.0)
}

fn put_submit_event(
    out: &mut Vec<u8>,
    client: ClientId,
    server: ServerId,
    r: Round,
) -> Result<(), NoMemory>
    ensures { OnOk result (out.new.items ≡ out.old.items ++ spaced (codes "submit" ∷ submit_event.spell (client, (server, r)))) }
{
    put_bytes(out, b"submit")?;
    add_client(out, client)?;
    add_server(out, server)?;
    add_number(out, r.0)
}

fn put_deliver_event(out: &mut Vec<u8>, id: u64) -> Result<(), NoMemory>
    ensures { OnOk result (out.new.items ≡ out.old.items ++ spaced (codes "deliver" ∷ deliver_event.spell id)) }
{
    put_bytes(out, b"deliver")?;
    add_number(out, id)
}

fn put_lose_event(out: &mut Vec<u8>, id: u64) -> Result<(), NoMemory>
    ensures { OnOk result (out.new.items ≡ out.old.items ++ spaced (codes "lose" ∷ lose_event.spell id)) }
{
    put_bytes(out, b"lose")?;
    add_number(out, id)
}

fn put_close_event(out: &mut Vec<u8>, server: ServerId) -> Result<(), NoMemory>
    ensures { OnOk result (out.new.items ≡ out.old.items ++ spaced (codes "close" ∷ close_event.spell server)) }
{
    put_bytes(out, b"close")?;
    add_server(out, server)
}

fn put_abandon_event(out: &mut Vec<u8>, server: ServerId) -> Result<(), NoMemory>
    ensures { OnOk result (out.new.items ≡ out.old.items ++ spaced (codes "abandon" ∷ abandon_event.spell server)) }
{
    put_bytes(out, b"abandon")?;
    add_server(out, server)
}

fn put_leave_event(out: &mut Vec<u8>, client: ClientId) -> Result<(), NoMemory>
    ensures { OnOk result (out.new.items ≡ out.old.items ++ spaced (codes "leave" ∷ leave_event.spell client)) }
{
    put_bytes(out, b"leave")?;
    add_client(out, client)
}

fn put_accuse_event(out: &mut Vec<u8>, client: ClientId, r: Round, k: u32) -> Result<(), NoMemory>
    ensures { OnOk result (out.new.items ≡ out.old.items ++ spaced (codes "accuse" ∷ accuse_event.spell (client, (r, k)))) }
{
    put_bytes(out, b"accuse")?;
    add_client(out, client)?;
    add_number(out, r.0)?;
    add_number(out, u64::from(k))
}

fn put_judge_event(out: &mut Vec<u8>, r: Round, k: u32) -> Result<(), NoMemory>
    ensures { OnOk result (out.new.items ≡ out.old.items ++ spaced (codes "judge" ∷ judge_event.spell (r, k))) }
{
    put_bytes(out, b"judge")?;
    add_number(out, r.0)?;
    add_number(out, u64::from(k))
}

fn put_inject_event(
    out: &mut Vec<u8>,
    from: Member,
    to: Member,
    payload: u64,
) -> Result<(), NoMemory>
    ensures { OnOk result (out.new.items ≡ out.old.items ++ spaced (codes "inject" ∷ inject_event.spell (from, (to, payload)))) }
{
    put_bytes(out, b"inject")?;
    add_member(out, from)?;
    add_member(out, to)?;
    add_number(out, payload)
}

/// Appends the fields of an event line behind `@`, with one blank between them.
pub fn put_event(out: &mut Vec<u8>, event: &EventLine) -> Result<(), NoMemory>
    ensures { OnOk result (out.new.items ≡ out.old.items ++ spaced (event_fields event.now)) }
{
    match event {
        EventLine::Say { client, text } => put_say_event(out, *client, text),
        EventLine::Open { server, r } => put_open_event(out, *server, *r),
        EventLine::Submit { client, server, r } => put_submit_event(out, *client, *server, *r),
        EventLine::Deliver { id } => put_deliver_event(out, *id),
        EventLine::Lose { id } => put_lose_event(out, *id),
        EventLine::Tick => put_bytes(out, b"tick"),
        EventLine::Close { server } => put_close_event(out, *server),
        EventLine::Abandon { server } => put_abandon_event(out, *server),
        EventLine::Leave { client } => put_leave_event(out, *client),
        EventLine::Accuse { client, r, k } => put_accuse_event(out, *client, *r, *k),
        EventLine::Judge { r, k } => put_judge_event(out, *r, *k),
        EventLine::Inject { from, to, payload } => put_inject_event(out, *from, *to, *payload),
    }
}
