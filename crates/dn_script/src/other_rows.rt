// Lines whose number of fields is open.

ghost use Rattle.std.specs.Prelude.{◌≡◌};
ghost use Rattle.dn_script.specs.Judged.{seen_as, judge, corrupt_member};
ghost use Rattle.dn_script.specs.Row.{Tells, in_field};
ghost use Rattle.dn_script.specs.Script.{read_judge, read_twist, read_twist_of, server_alone};

use crate::fields::{client_at, corrupt_member_at, end_of, expect, place_at, round_at, text_of};
use crate::flaw::{LineFault, bad};
use crate::judging::{GroupView, corrupt_member};
use crate::script_line::{ScriptLine, Twist};
use crate::words::Words;
use dn_io::Cause;
use dn_wire::Member;

/// A `judge` line, with or without a place.
#[tactic(auto, unfolding(crate::specs::Script::read_judge))]
pub fn judge(words: &mut Words) -> Result<ScriptLine, LineFault>
    ensures { Tells (λ x. x) result (read_judge words.old) }
{
    if words.has(1, 1) {
        let r = round_at(words, 1)?;
        end_of(words)?;
        return Ok(ScriptLine::Judge { r, k: None });
    }
    expect(words, 2, 2)?;
    let r = round_at(words, 1)?;
    let k = place_at(words, 2)?;
    end_of(words)?;
    Ok(ScriptLine::Judge { r, k: Some(k) })
}

/// A twist of a corrupt member.
#[tactic(auto, unfolding(crate::specs::Script::read_twist_of))]
fn twist_of(
    group: GroupView,
    who: &[u8],
    word: &[u8],
    words: &mut Words,
) -> Result<ScriptLine, LineFault>
    ensures { Tells (λ x. x) result (read_twist_of (seen_as group.entry) who.now word.now words.old) }
{
    if word == b"mute".as_slice() {
        expect(words, 0, 0)?;
        let member = corrupt(group, who)?;
        return Ok(ScriptLine::Twist {
            member,
            twist: Twist::Mute,
        });
    }
    expect(words, 1, 1)?;
    if word == b"flip".as_slice() {
        let member = corrupt(group, who)?;
        let k = place_at(words, 3)?;
        end_of(words)?;
        return Ok(ScriptLine::Twist {
            member,
            twist: Twist::Flip { k },
        });
    }
    if word == b"jam".as_slice() {
        let member = corrupt(group, who)?;
        let client = client_at(words, 3, group)?;
        end_of(words)?;
        return Ok(ScriptLine::Twist {
            member,
            twist: Twist::Jam { client },
        });
    }
    if word == b"reveal".as_slice() {
        let member = corrupt(group, who)?;
        server_alone(member)?;
        let k = place_at(words, 3)?;
        end_of(words)?;
        return Ok(ScriptLine::Twist {
            member,
            twist: Twist::Reveal { k },
        });
    }
    if word == b"frame".as_slice() {
        let member = corrupt(group, who)?;
        server_alone(member)?;
        let client = client_at(words, 3, group)?;
        end_of(words)?;
        return Ok(ScriptLine::Twist {
            member,
            twist: Twist::Frame { client },
        });
    }
    Err(LineFault::Bad(Cause::Fields))
}

/// The corrupt member of field 1.
fn corrupt(group: GroupView, text: &[u8]) -> Result<Member, LineFault>
    ensures { Tells (λ x. x) result (in_field 1 (judge (corrupt_member (seen_as group.entry)) text.now)) }
{
    match corrupt_member(group, text) {
        Ok(member) => Ok(member),
        Err(flaw) => Err(bad(1, flaw)),
    }
}

/// The twist of a server alone.
fn server_alone(member: Member) -> Result<(), LineFault>
    ensures { Tells (λ x. x) result (server_alone member) }
{
    match member {
        Member::Client(_) => Err(LineFault::Bad(Cause::Range(2))),
        Member::Server(_) => Ok(()),
    }
}

/// A `twist` line.
pub fn twist(group: GroupView, words: &mut Words) -> Result<ScriptLine, LineFault>
    ensures { Tells (λ x. x) result (read_twist (seen_as group.entry) words.old) }
{
    let who = text_of(words)?;
    let word = text_of(words)?;
    twist_of(group, who, word, words)
}
