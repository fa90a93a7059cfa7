// Lines with a fixed number of fields.

ghost use Rattle.std.specs.Prelude.{◌≡◌};
ghost use Rattle.dn_script.specs.Judged.{seen_as};
ghost use Rattle.dn_script.specs.Row.{Tells};
ghost use Rattle.dn_script.specs.Script.{read_plain, read_plain_say, read_plain_submit, read_tick, read_group, read_say, read_open, read_close, read_abandon, read_submit, read_deliver, read_lose, read_cut, read_flow, read_leave, read_accuse, read_live, read_inject, read_speak, read_replay, read_lure, read_complete};

use crate::fields::{
    any_bytes_at, bits_at, bytes_at, client_at, client_number_at, corrupt_member_at,
    corrupt_server_at, end_of, expect, member_at, number_at, place_or_first_at, round_at, seed_at,
    server_at, small_at,
};
use crate::flaw::LineFault;
use crate::judging::GroupView;
use crate::script_line::ScriptLine;
use crate::words::Words;
use dn_wire::{MAX_BITS, MAX_CLIENTS, MAX_FLOW, MAX_LIVE_TURNS, MAX_SERVERS, MAX_TEXT, MAX_TICKS};
use std::alloc::Global;

#[tactic(auto, unfolding(crate::specs::Script::read_plain))]
pub fn plain(alloc: Global, words: &mut Words) -> Result<ScriptLine, LineFault>
    ensures { Tells (λ x. x) result (read_plain words.old) }
{
    expect(words, 4, 4)?;
    let clients = small_at(words, 1, 1, MAX_CLIENTS)?;
    let servers = small_at(words, 2, 1, MAX_SERVERS)?;
    let bits = small_at(words, 3, 1, MAX_BITS)?;
    let seed = seed_at(alloc, words, 4)?;
    end_of(words)?;
    Ok(ScriptLine::Plain {
        clients,
        servers,
        bits,
        seed,
    })
}

#[tactic(auto, unfolding(crate::specs::Script::read_plain_say))]
pub fn plain_say(
    alloc: Global,
    clients: u32,
    bits: u32,
    words: &mut Words,
) -> Result<ScriptLine, LineFault>
    ensures { Tells (λ x. x) result (read_plain_say clients bits words.old) }
{
    expect(words, 2, 2)?;
    let client = client_number_at(words, 1, clients)?;
    let message = bits_at(alloc, words, 2, bits)?;
    end_of(words)?;
    Ok(ScriptLine::PlainSay { client, message })
}

#[tactic(auto, unfolding(crate::specs::Script::read_plain_submit))]
pub fn plain_submit(clients: u32, words: &mut Words) -> Result<ScriptLine, LineFault>
    ensures { Tells (λ x. x) result (read_plain_submit clients words.old) }
{
    expect(words, 1, 1)?;
    let client = client_number_at(words, 1, clients)?;
    end_of(words)?;
    Ok(ScriptLine::PlainSubmit { client })
}

#[tactic(auto, unfolding(crate::specs::Script::read_tick))]
pub fn tick(words: &mut Words) -> Result<ScriptLine, LineFault>
    ensures { Tells (λ x. x) result (read_tick words.old) }
{
    expect(words, 1, 1)?;
    let count = small_at(words, 1, 1, MAX_TICKS)?;
    end_of(words)?;
    Ok(ScriptLine::Tick { count })
}

#[tactic(auto, unfolding(crate::specs::Script::read_group))]
pub fn group(alloc: Global, version: u8, words: &mut Words) -> Result<ScriptLine, LineFault>
    ensures { Tells (λ x. x) result (read_group version words.old) }
{
    expect(words, 6, 6)?;
    let clients = small_at(words, 1, 1, MAX_CLIENTS)?;
    let servers = small_at(words, 2, 1, MAX_SERVERS)?;
    let ots = small_at(words, 3, 1, 4)?;
    let client_lms = small_at(words, 4, 5, 6)?;
    let server_lms = small_at(words, 5, 5, 7)?;
    let seed = seed_at(alloc, words, 6)?;
    end_of(words)?;
    Ok(ScriptLine::Group {
        version,
        clients,
        servers,
        ots,
        client_lms,
        server_lms,
        seed,
    })
}

#[tactic(auto, unfolding(crate::specs::Script::read_say))]
pub fn say(alloc: Global, group: GroupView, words: &mut Words) -> Result<ScriptLine, LineFault>
    ensures { Tells (λ x. x) result (read_say (seen_as group.entry) words.old) }
{
    expect(words, 2, 2)?;
    let client = client_at(words, 1, group)?;
    let text = bytes_at(alloc, words, 2, 0, MAX_TEXT as usize)?;
    end_of(words)?;
    Ok(ScriptLine::Say { client, text })
}

#[tactic(auto, unfolding(crate::specs::Script::read_open))]
pub fn open(group: GroupView, words: &mut Words) -> Result<ScriptLine, LineFault>
    ensures { Tells (λ x. x) result (read_open (seen_as group.entry) words.old) }
{
    expect(words, 2, 2)?;
    let server = server_at(words, 1, group)?;
    let r = round_at(words, 2)?;
    end_of(words)?;
    Ok(ScriptLine::Open { server, r })
}

#[tactic(auto, unfolding(crate::specs::Script::read_close))]
pub fn close(group: GroupView, words: &mut Words) -> Result<ScriptLine, LineFault>
    ensures { Tells (λ x. x) result (read_close (seen_as group.entry) words.old) }
{
    expect(words, 1, 1)?;
    let server = server_at(words, 1, group)?;
    end_of(words)?;
    Ok(ScriptLine::Close { server })
}

#[tactic(auto, unfolding(crate::specs::Script::read_abandon))]
pub fn abandon(group: GroupView, words: &mut Words) -> Result<ScriptLine, LineFault>
    ensures { Tells (λ x. x) result (read_abandon (seen_as group.entry) words.old) }
{
    expect(words, 1, 1)?;
    let server = server_at(words, 1, group)?;
    end_of(words)?;
    Ok(ScriptLine::Abandon { server })
}

#[tactic(auto, unfolding(crate::specs::Script::read_submit))]
pub fn submit(group: GroupView, words: &mut Words) -> Result<ScriptLine, LineFault>
    ensures { Tells (λ x. x) result (read_submit (seen_as group.entry) words.old) }
{
    expect(words, 3, 3)?;
    let client = client_at(words, 1, group)?;
    let server = server_at(words, 2, group)?;
    let r = round_at(words, 3)?;
    end_of(words)?;
    Ok(ScriptLine::Submit { client, server, r })
}

#[tactic(auto, unfolding(crate::specs::Script::read_deliver))]
pub fn deliver(words: &mut Words) -> Result<ScriptLine, LineFault>
    ensures { Tells (λ x. x) result (read_deliver words.old) }
{
    expect(words, 1, 1)?;
    let id = number_at(words, 1, 0, u64::MAX)?;
    end_of(words)?;
    Ok(ScriptLine::Deliver { id })
}

#[tactic(auto, unfolding(crate::specs::Script::read_lose))]
pub fn lose(words: &mut Words) -> Result<ScriptLine, LineFault>
    ensures { Tells (λ x. x) result (read_lose words.old) }
{
    expect(words, 1, 1)?;
    let id = number_at(words, 1, 0, u64::MAX)?;
    end_of(words)?;
    Ok(ScriptLine::Lose { id })
}

#[tactic(auto, unfolding(crate::specs::Script::read_cut))]
pub fn cut(group: GroupView, words: &mut Words) -> Result<ScriptLine, LineFault>
    ensures { Tells (λ x. x) result (read_cut (seen_as group.entry) words.old) }
{
    expect(words, 2, 2)?;
    let from = member_at(words, 1, group)?;
    let to = member_at(words, 2, group)?;
    end_of(words)?;
    Ok(ScriptLine::Cut { from, to })
}

#[tactic(auto, unfolding(crate::specs::Script::read_flow))]
pub fn flow(words: &mut Words) -> Result<ScriptLine, LineFault>
    ensures { Tells (λ x. x) result (read_flow words.old) }
{
    expect(words, 1, 1)?;
    let times = small_at(words, 1, 1, MAX_FLOW)?;
    end_of(words)?;
    Ok(ScriptLine::Flow { times })
}

#[tactic(auto, unfolding(crate::specs::Script::read_leave))]
pub fn leave(group: GroupView, words: &mut Words) -> Result<ScriptLine, LineFault>
    ensures { Tells (λ x. x) result (read_leave (seen_as group.entry) words.old) }
{
    expect(words, 1, 1)?;
    let client = client_at(words, 1, group)?;
    end_of(words)?;
    Ok(ScriptLine::Leave { client })
}

#[tactic(auto, unfolding(crate::specs::Script::read_accuse))]
pub fn accuse(group: GroupView, words: &mut Words) -> Result<ScriptLine, LineFault>
    ensures { Tells (λ x. x) result (read_accuse (seen_as group.entry) words.old) }
{
    expect(words, 3, 3)?;
    let client = client_at(words, 1, group)?;
    let r = round_at(words, 2)?;
    let k = place_or_first_at(words, 3)?;
    end_of(words)?;
    Ok(ScriptLine::Accuse { client, r, k })
}

#[tactic(auto, unfolding(crate::specs::Script::read_live))]
pub fn live(words: &mut Words) -> Result<ScriptLine, LineFault>
    ensures { Tells (λ x. x) result (read_live words.old) }
{
    expect(words, 1, 1)?;
    let turns = small_at(words, 1, 1, MAX_LIVE_TURNS)?;
    end_of(words)?;
    Ok(ScriptLine::Live { turns })
}

#[tactic(auto, unfolding(crate::specs::Script::read_inject))]
pub fn inject(alloc: Global, group: GroupView, words: &mut Words) -> Result<ScriptLine, LineFault>
    ensures { Tells (λ x. x) result (read_inject (seen_as group.entry) words.old) }
{
    expect(words, 3, 3)?;
    let from = corrupt_member_at(words, 1, group)?;
    let to = member_at(words, 2, group)?;
    let payload = any_bytes_at(alloc, words, 3)?;
    end_of(words)?;
    Ok(ScriptLine::Inject { from, to, payload })
}

#[tactic(auto, unfolding(crate::specs::Script::read_speak))]
pub fn speak(alloc: Global, group: GroupView, words: &mut Words) -> Result<ScriptLine, LineFault>
    ensures { Tells (λ x. x) result (read_speak (seen_as group.entry) words.old) }
{
    expect(words, 3, 3)?;
    let from = corrupt_member_at(words, 1, group)?;
    let to = member_at(words, 2, group)?;
    let statement = any_bytes_at(alloc, words, 3)?;
    end_of(words)?;
    Ok(ScriptLine::Speak {
        from,
        to,
        statement,
    })
}

#[tactic(auto, unfolding(crate::specs::Script::read_replay))]
pub fn replay(group: GroupView, words: &mut Words) -> Result<ScriptLine, LineFault>
    ensures { Tells (λ x. x) result (read_replay (seen_as group.entry) words.old) }
{
    expect(words, 2, 2)?;
    let payload = number_at(words, 1, 0, u64::MAX)?;
    let to = member_at(words, 2, group)?;
    end_of(words)?;
    Ok(ScriptLine::Replay { payload, to })
}

#[tactic(auto, unfolding(crate::specs::Script::read_lure))]
pub fn lure(group: GroupView, words: &mut Words) -> Result<ScriptLine, LineFault>
    ensures { Tells (λ x. x) result (read_lure (seen_as group.entry) words.old) }
{
    expect(words, 3, 3)?;
    let server = corrupt_server_at(words, 1, group)?;
    let client = client_at(words, 2, group)?;
    let r = round_at(words, 3)?;
    end_of(words)?;
    Ok(ScriptLine::Lure { server, client, r })
}

#[tactic(auto, unfolding(crate::specs::Script::read_complete))]
pub fn complete(group: GroupView, words: &mut Words) -> Result<ScriptLine, LineFault>
    ensures { Tells (λ x. x) result (read_complete (seen_as group.entry) words.old) }
{
    expect(words, 2, 2)?;
    let server = corrupt_server_at(words, 1, group)?;
    let r = round_at(words, 2)?;
    end_of(words)?;
    Ok(ScriptLine::Complete { server, r })
}
