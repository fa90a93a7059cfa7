// Reading event lines.

ghost use Rattle.std.specs.Prelude.{◌≡◌};
ghost use Rattle.dn_lines.specs.Field.{Gives};
ghost use Rattle.dn_report.specs.Forms.{read_say_event, read_open_event, read_submit_event, read_deliver_event, read_lose_event, read_tick_event, read_close_event, read_abandon_event, read_leave_event, read_accuse_event, read_judge_event, read_inject_event};
ghost use Rattle.dn_report.specs.Lines.{read_event};

use crate::line::EventLine;
use dn_lines::{
    Fields, LineFault, bytes_of, client_of, end_of, long_number_of, member_of, number_of, round_of,
    server_of,
};
use std::alloc::Global;

#[tactic(auto, unfolding(crate::specs::Forms::read_say_event))]
fn say_event(alloc: Global, fields: &mut Fields) -> Result<EventLine, LineFault>
    ensures { Gives (λ x. x) result (read_say_event fields.old) }
{
    let client = client_of(fields)?;
    let text = bytes_of(alloc, fields)?;
    end_of(fields)?;
    Ok(EventLine::Say { client, text })
}

#[tactic(auto, unfolding(crate::specs::Forms::read_open_event))]
fn open_event(fields: &mut Fields) -> Result<EventLine, LineFault>
    ensures { Gives (λ x. x) result (read_open_event fields.old) }
{
    let server = server_of(fields)?;
    let r = round_of(fields)?;
    end_of(fields)?;
    Ok(EventLine::Open { server, r })
}

#[tactic(auto, unfolding(crate::specs::Forms::read_submit_event))]
fn submit_event(fields: &mut Fields) -> Result<EventLine, LineFault>
    ensures { Gives (λ x. x) result (read_submit_event fields.old) }
{
    let client = client_of(fields)?;
    let server = server_of(fields)?;
    let r = round_of(fields)?;
    end_of(fields)?;
    Ok(EventLine::Submit { client, server, r })
}

#[tactic(auto, unfolding(crate::specs::Forms::read_deliver_event))]
fn deliver_event(fields: &mut Fields) -> Result<EventLine, LineFault>
    ensures { Gives (λ x. x) result (read_deliver_event fields.old) }
{
    let id = long_number_of(fields)?;
    end_of(fields)?;
    Ok(EventLine::Deliver { id })
}

#[tactic(auto, unfolding(crate::specs::Forms::read_lose_event))]
fn lose_event(fields: &mut Fields) -> Result<EventLine, LineFault>
    ensures { Gives (λ x. x) result (read_lose_event fields.old) }
{
    let id = long_number_of(fields)?;
    end_of(fields)?;
    Ok(EventLine::Lose { id })
}

#[tactic(auto, unfolding(crate::specs::Forms::read_tick_event))]
fn tick_event(fields: &mut Fields) -> Result<EventLine, LineFault>
    ensures { Gives (λ x. x) result (read_tick_event fields.old) }
{
    end_of(fields)?;
    Ok(EventLine::Tick)
}

#[tactic(auto, unfolding(crate::specs::Forms::read_close_event))]
fn close_event(fields: &mut Fields) -> Result<EventLine, LineFault>
    ensures { Gives (λ x. x) result (read_close_event fields.old) }
{
    let server = server_of(fields)?;
    end_of(fields)?;
    Ok(EventLine::Close { server })
}

#[tactic(auto, unfolding(crate::specs::Forms::read_abandon_event))]
fn abandon_event(fields: &mut Fields) -> Result<EventLine, LineFault>
    ensures { Gives (λ x. x) result (read_abandon_event fields.old) }
{
    let server = server_of(fields)?;
    end_of(fields)?;
    Ok(EventLine::Abandon { server })
}

#[tactic(auto, unfolding(crate::specs::Forms::read_leave_event))]
fn leave_event(fields: &mut Fields) -> Result<EventLine, LineFault>
    ensures { Gives (λ x. x) result (read_leave_event fields.old) }
{
    let client = client_of(fields)?;
    end_of(fields)?;
    Ok(EventLine::Leave { client })
}

#[tactic(auto, unfolding(crate::specs::Forms::read_accuse_event))]
fn accuse_event(fields: &mut Fields) -> Result<EventLine, LineFault>
    ensures { Gives (λ x. x) result (read_accuse_event fields.old) }
{
    let client = client_of(fields)?;
    let r = round_of(fields)?;
    let k = number_of(fields)?;
    end_of(fields)?;
    Ok(EventLine::Accuse { client, r, k })
}

#[tactic(auto, unfolding(crate::specs::Forms::read_judge_event))]
fn judge_event(fields: &mut Fields) -> Result<EventLine, LineFault>
    ensures { Gives (λ x. x) result (read_judge_event fields.old) }
{
    let r = round_of(fields)?;
    let k = number_of(fields)?;
    end_of(fields)?;
    Ok(EventLine::Judge { r, k })
}

#[tactic(auto, unfolding(crate::specs::Forms::read_inject_event))]
fn inject_event(fields: &mut Fields) -> Result<EventLine, LineFault>
    ensures { Gives (λ x. x) result (read_inject_event fields.old) }
{
    let from = member_of(fields)?;
    let to = member_of(fields)?;
    let payload = long_number_of(fields)?;
    end_of(fields)?;
    Ok(EventLine::Inject { from, to, payload })
}

#[tactic(auto, unfolding(crate::specs::Lines::read_event))]
/// The event line of this word and the fields behind it.
pub fn event_of(alloc: Global, word: &[u8], fields: &mut Fields) -> Result<EventLine, LineFault>
    ensures { Gives (λ x. x) result (read_event word.now fields.old) }
{
    if word == b"say".as_slice() {
        return say_event(alloc, fields);
    }
    if word == b"open".as_slice() {
        return open_event(fields);
    }
    if word == b"submit".as_slice() {
        return submit_event(fields);
    }
    if word == b"deliver".as_slice() {
        return deliver_event(fields);
    }
    if word == b"lose".as_slice() {
        return lose_event(fields);
    }
    if word == b"tick".as_slice() {
        return tick_event(fields);
    }
    if word == b"close".as_slice() {
        return close_event(fields);
    }
    if word == b"abandon".as_slice() {
        return abandon_event(fields);
    }
    if word == b"leave".as_slice() {
        return leave_event(fields);
    }
    if word == b"accuse".as_slice() {
        return accuse_event(fields);
    }
    if word == b"judge".as_slice() {
        return judge_event(fields);
    }
    if word == b"inject".as_slice() {
        return inject_event(fields);
    }
    Err(LineFault::Grammar)
}
