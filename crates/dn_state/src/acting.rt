// What comes of a server's answer.
ghost use Rattle.std.specs.Prelude.{◌≡◌, ◌++◌, List, OnOk};
ghost use Rattle.std.specs.Option.{option_to_list};
ghost use Rattle.dn_report.specs.declared.outcome.Outcome.{Outcome as OutcomeOf};
ghost use Rattle.dn_state.specs.Acting.{line_of, TellsCertified, Acts, ComesOf};
ghost use Rattle.dn_state.specs.Doing.{InTurn};

use crate::putting::{Sender, follow, put};
use crate::round_lines::tell_round;
use crate::state::State;
use crate::words::{ignored_word, spoil_word};
use dn_cert::Certificate;
use dn_memory::NoMemory;
use dn_report::Outcome;
use dn_server::{Act, Answer};
use dn_wire::{Member, Round, ServerId};

/// The line of an act that puts nothing and ends no round; none for the others. The server opened round `last` last.
fn line_of(server: ServerId, last: Round, act: &Act) -> Option<Outcome>
    ensures { result ≡ line_of server last act.now }
{
    match act {
        Act::Opened { r, prev } => Some(Outcome::Opened {
            server,
            r: *r,
            prev: *prev,
        }),
        Act::Told { client, r, told } => Some(Outcome::Told {
            client: *client,
            server,
            r: *r,
            told: *told,
        }),
        Act::Closed { r, count } => Some(Outcome::Closed {
            server,
            r: *r,
            count: *count,
        }),
        Act::Spoiled {
            server: by,
            reason,
            ..
        } => Some(Outcome::Spoiled {
            server,
            r: last,
            by: *by,
            reason: spoil_word(*reason),
        }),
        Act::Abandoned => Some(Outcome::Abandoned { server, r: last }),
        Act::Held { r } => Some(Outcome::Held {
            member: Member::Server(server),
            r: *r,
        }),
        _ => None,
    }
}

/// Tells a line, if there is one.
fn tell_line(line: Option<Outcome>, outcomes: &mut Vec<Outcome>) -> Result<(), NoMemory>
    ensures { OnOk result (outcomes.new.items ≡ outcomes.old.items ++ option_to_list line) }
{
    if let Some(line) = line {
        outcomes.push(line)?;
    }
    Ok(())
}

/// Gives a certificate to the run's chain, and tells what its round came to.
fn tell_certified(
    state: &mut State,
    certificate: &Certificate,
    outcomes: &mut Vec<Outcome>,
) -> Result<(), NoMemory>
    ensures roster { state.new.roster ≡ state.old.roster }
    ensures tells { OnOk result ((lines : List OutcomeOf) × TellsCertified certificate.now state.old state.new lines × (outcomes.new.items ≡ outcomes.old.items ++ lines)) }
{
    follow(state.alloc, &mut state.chain, certificate)?;
    tell_round(state, certificate.body(), outcomes)
}

/// What comes of one act of a server that opened round `last` last.
fn act(
    state: &mut State,
    server: ServerId,
    last: Round,
    act: &Act,
    outcomes: &mut Vec<Outcome>,
) -> Result<(), NoMemory>
    ensures roster { state.new.roster ≡ state.old.roster }
    ensures acts { OnOk result ((lines : List OutcomeOf) × Acts server last act.now state.old state.new lines × (outcomes.new.items ≡ outcomes.old.items ++ lines)) }
{
    match act {
        Act::Post { to, payload } => {
            let sender = Sender {
                member: Member::Server(server),
                is_own: true,
            };
            put(state, sender, to.get(), payload.get(), outcomes)
        }
        Act::Certified(certificate) => {
            outcomes.push(Outcome::Certified {
                server,
                r: certificate.body().r,
            })?;
            tell_certified(state, certificate, outcomes)
        }
        _ => tell_line(line_of(server, last, act), outcomes),
    }
}

/// What comes of each of a server's acts, in order.
fn act_each(
    state: &mut State,
    server: ServerId,
    last: Round,
    acts: &[Act],
    outcomes: &mut Vec<Outcome>,
) -> Result<(), NoMemory>
    ensures roster { state.new.roster ≡ state.old.roster }
    ensures acts { OnOk result ((lines : List OutcomeOf) × InTurn (Acts server last) acts.now state.old state.new lines × (outcomes.new.items ≡ outcomes.old.items ++ lines)) }
{
    for each in acts {
        act(state, server, last, each, outcomes)?;
    }
    Ok(())
}

/// What comes of a server's answer.
pub fn act_on(
    state: &mut State,
    server: ServerId,
    last: Round,
    answer: &Answer,
    outcomes: &mut Vec<Outcome>,
) -> Result<(), NoMemory>
    ensures roster { state.new.roster ≡ state.old.roster }
    ensures comes { OnOk result ((lines : List OutcomeOf) × ComesOf server last answer.now state.old state.new lines × (outcomes.new.items ≡ outcomes.old.items ++ lines)) }
{
    match answer {
        Answer::Acts(acts) => act_each(state, server, last, acts.get(), outcomes),
        Answer::Ignored(reason) => {
            outcomes.push(Outcome::Ignored(ignored_word(*reason)))?;
            Ok(())
        }
        Answer::Early => {
            outcomes.push(Outcome::Early)?;
            Ok(())
        }
    }
}
