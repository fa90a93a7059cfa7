// Live runs: the honest servers hand each other what is in flight between them, each in a thread.
ghost use Rattle.std.specs.Prelude.{◌≡◌, ◌≤◌, All, IfOk, IfSome, vec_len};
ghost use Rattle.dn_wire.specs.declared.limits.TheConstants.{MAX_LIVE_TURNS};
ghost use Rattle.dn_seal.specs.Dealt.{dealt_roster};

use crate::delivering::in_flight;
use crate::run::Run;
use dn_board::{Board, Letter, Post};
use dn_crew::{Crew, Lived, Posts};
use dn_exchange::ServerCore;
use dn_memory::NoMemory;
use dn_report::{Event, Outcome};
use dn_run_report::Shown;
use dn_turns::Turns;
use dn_wire::{Bytes, MAX_LIVE_TURNS, Member, ServerId};
use dn_world::World;
use std::alloc::Global;
use std::mem;
use std::sync::Wait;
use std::thread::Threads;

/// A message in flight from one honest server to another.
#[derive(Clone, Copy, Debug, PartialEq, Eq)]
struct Passing {
    id: u64,
    to: ServerId,
}

/// What a live run's board stands for in the world.
#[derive(Drop)]
struct Entries {
    /// The messages of each entry, in order of their numbers.
    messages: Vec<Vec<Passing>>,
    /// How many entries each server's last post had read.
    reads: Vec<u64>,
}

/// The honest server that a member is.
fn honest_server(world: &World, member: Member) -> Option<ServerId> {
    match member {
        Member::Server(server) if !world.is_corrupt(member) => Some(server),
        _ => None,
    }
}

/// The letter that a message in flight is; none where it isn't one between honest servers.
fn letter_of(alloc: Global, world: &World, id: u64) -> Result<Option<Letter>, NoMemory> {
    let Some(msg) = world.flight().get(id) else {
        return Ok(None);
    };
    let (Some(from), Some(to)) = (honest_server(world, msg.from), honest_server(world, msg.to))
    else {
        return Ok(None);
    };
    let Some(payload) = world.payload(msg.payload) else {
        return Ok(None);
    };
    let payload = Bytes::of(Vec::from_slice(alloc, payload)?);
    Ok(Some(Letter { from, to, payload }))
}

/// The messages in flight between honest servers, and the letters that they are.
fn first_entry(alloc: Global, world: &World) -> Result<(Vec<Passing>, Vec<Letter>), NoMemory> {
    let mut messages = Vec::new(alloc);
    let mut letters = Vec::new(alloc);
    for id in in_flight(alloc, world)? {
        if let Some(letter) = letter_of(alloc, world, id)? {
            messages.push(Passing { id, to: letter.to })?;
            letters.push(letter)?;
        }
    }
    Ok((messages, letters))
}

/// A twin of a server's core; none where it is corrupt.
fn twin_of(run: &Run, server: ServerId) -> Result<Option<ServerCore>, NoMemory>
    ensures { IfOk result (λ twin. IfSome twin (λ core. core.seat.roster ≡ dealt_roster run.now.group.spec)) }
{
    match run.world.server(server) {
        Some(core) => Ok(Some(core.twin()?)),
        None => Ok(None),
    }
}

/// A twin of each honest server's core, by number.
fn twins(run: &Run) -> Result<Vec<ServerCore>, NoMemory>
    ensures few { IfOk result (λ v. vec_len v ≤ run.now.group.spec.servers) }
    ensures group { IfOk result (λ v. All (λ core. core.seat.roster ≡ dealt_roster run.now.group.spec) v.items) }
{
    let mut cores = Vec::new(run.alloc);
    for j in 0..run.group.servers {
        let twin = twin_of(run, ServerId(j))?;
        if let Some(core) = twin {
            cores.push(core)?;
        }
    }
    Ok(cores)
}

/// The posts that workers of the crew give, one for each of these cores, on a board with these first letters.
fn posts_of<R: Threads + Wait + Sync, C: Crew>(
    rt: &R,
    run: &Run,
    crew: &mut C,
    letters: Vec<Letter>,
    cores: Vec<ServerCore>,
    turns: u32,
) -> Result<Posts, NoMemory>
    requires turns { (1 ≤ turns) × (turns ≤ MAX_LIVE_TURNS) }
    requires cores { (1 ≤ vec_len cores) × (vec_len cores ≤ run.now.group.spec.servers) }
    requires group { All (λ core. core.seat.roster ≡ dealt_roster run.now.group.spec) cores.items }
{
    let board = Board::make(run.alloc, letters)?;
    let (lock, passes) = Turns::make(run.alloc, board, cores.len() as u32)?;
    let Lived { posts, .. } = crew.live(rt, run.alloc, &lock, passes, &run.roster, cores, turns)?;
    Ok(posts)
}

/// Adds the messages to honest servers that the last event sent.
fn add_sent(world: &World, entry: &mut Vec<Passing>) -> Result<(), NoMemory> {
    let Some(step) = world.history().last() else {
        return Ok(());
    };
    for outcome in step.outcomes.get() {
        if let Outcome::Sent { id, to, .. } = outcome {
            if let Some(to) = honest_server(world, *to) {
                entry.push(Passing { id: *id, to })?;
            }
        }
    }
    Ok(())
}

/// Delivers the messages to a server in an entry, and adds what it then sends to honest servers.
fn deliver_entry<R: Threads + Sync>(
    rt: &R,
    run: &mut Run,
    server: ServerId,
    messages: &[Passing],
    sent: &mut Vec<Passing>,
) -> Result<(), NoMemory>
    ensures { run.new.group ≡ run.old.group }
{
    for message in messages {
        if message.to == server {
            run.step(rt, Event::Deliver { id: message.id })?;
            add_sent(&run.world, sent)?;
        }
    }
    Ok(())
}

impl Entries {
    /// The first entry, of which no server has read anything.
    fn of(alloc: Global, first: Vec<Passing>, servers: u32) -> Result<Entries, NoMemory> {
        Ok(Entries {
            messages: vec![in alloc; first]?,
            reads: vec![in alloc; 0; servers as usize]?,
        })
    }

    /// The entries that a server has read in a post, and hadn't read before. They count as read from then on.
    fn read_up_to(&mut self, server: ServerId, read: u64) -> &[Vec<Passing>] {
        let past = (read as usize).min(self.messages.len());
        let from = match self.reads.get_mut(server.0 as usize) {
            Some(from) => (mem::replace(from, read) as usize).min(past),
            None => past,
        };
        &self.messages[from..past]
    }
}

/// A post's mark, and the deliveries of what its author had read.
fn follow_post<R: Threads + Sync>(
    rt: &R,
    run: &mut Run,
    entries: &mut Entries,
    post: &Post,
) -> Result<(), NoMemory>
    ensures { run.new.group ≡ run.old.group }
{
    let server = post.author;
    run.mark(Shown::Board {
        server,
        read: post.read,
    })?;
    let mut sent = Vec::new(run.alloc);
    for messages in entries.read_up_to(server, post.read) {
        deliver_entry(rt, run, server, messages, &mut sent)?;
    }
    entries.messages.push(sent)?;
    Ok(())
}

/// The events of a live run, in the order of its posts.
fn follow<R: Threads + Sync>(
    rt: &R,
    run: &mut Run,
    first: Vec<Passing>,
    posts: &[(u32, Post)],
) -> Result<(), NoMemory>
    ensures { run.new.group ≡ run.old.group }
{
    let mut entries = Entries::of(run.alloc, first, run.group.servers)?;
    for (_, post) in posts {
        follow_post(rt, run, &mut entries, post)?;
    }
    Ok(())
}

/// The honest servers take so many turns on a board, each in a worker, and hand each other what is in flight between them.
pub fn live<R: Threads + Wait + Sync, C: Crew>(
    rt: &R,
    run: &mut Run,
    crew: &mut C,
    turns: u32,
) -> Result<(), NoMemory>
    ensures { run.new.group ≡ run.old.group }
{
    let cores = twins(run)?;
    // Some server is honest; and the line of a live run has so many turns.
    if cores.is_empty() || turns < 1 || MAX_LIVE_TURNS < turns {
        return Ok(());
    }
    let (first, letters) = first_entry(run.alloc, &run.world)?;
    let posts = posts_of(rt, run, crew, letters, cores, turns)?;
    follow(rt, run, first, posts.get())
}
