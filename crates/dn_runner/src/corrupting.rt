// The lines that corrupt members alone have.
ghost use Rattle.std.specs.Prelude.{◌≡◌};

use crate::run::Run;
use dn_memory::NoMemory;
use dn_puppets::Injection;
use dn_report::Event;
use dn_script::ScriptLine;
use std::thread::Threads;

/// What a corrupt member puts on a line that only it has, beside an injection.
fn put_on(run: &mut Run, line: &ScriptLine, posts: &mut Vec<Injection>) -> Result<(), NoMemory>
    ensures { run.new.group ≡ run.old.group }
{
    match line {
        ScriptLine::Twist { member, twist } => run.puppets.twist(*member, *twist),
        ScriptLine::Speak {
            from,
            to,
            statement,
        } => run.puppets.speak(*from, *to, statement.get(), posts),
        ScriptLine::Replay { payload, to } => {
            run.puppets.look(&run.world)?;
            run.puppets.replay(&run.world, *payload, *to, posts)
        }
        ScriptLine::Lure { server, client, r } => {
            run.puppets.look(&run.world)?;
            run.puppets.lure(&run.world, *server, *client, *r, posts)
        }
        ScriptLine::Complete { server, r } => {
            run.puppets.look(&run.world)?;
            run.puppets.complete(&run.world, *server, *r, posts)
        }
        _ => Ok(()),
    }
}

/// Carries out a line that only corrupt members have; nothing on other lines.
pub fn corrupt_line<R: Threads + Sync>(
    rt: &R,
    run: &mut Run,
    line: &ScriptLine,
) -> Result<(), NoMemory>
    ensures { run.new.group ≡ run.old.group }
{
    if let ScriptLine::Inject { from, to, payload } = line {
        let payload = payload.copy(run.alloc)?;
        return run.step(
            rt,
            Event::Inject {
                from: *from,
                to: *to,
                payload,
            },
        );
    }
    let mut posts = Vec::new(run.alloc);
    put_on(run, line, &mut posts)?;
    run.inject(rt, posts)
}
