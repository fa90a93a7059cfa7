// What is heard of a played round, step by step.
use dn_bits::Bits;
use dn_trace::Fault;
use dn_wire::{ClientId, Member, ServerId, SignerId};
use played_rounds::{
    Jam, Played, commit, concede, group, inventory, judged, opened, pad_bits, play, rebuttal,
    receipt, reveal, sealed, shown, submission,
};
use std::alloc::Global;
use std::test::Fail;

/// The place that is judged.
const K: u32 = 100;

/// What is heard.
#[derive(Clone, Copy)]
pub enum Heard {
    /// What all servers open.
    Openings,
    /// The same, with the bit of a client turned in the pad bits of a server.
    OpeningsThatFrame {
        server: u32,
        client: u32,
    },
    Concedes(u32),
    /// A rebuttal with the true pad bits of the server.
    RebutsBadly {
        client: u32,
        server: u32,
    },
    /// A rebuttal with pad bits of the server in which the client's is turned.
    Rebuts {
        client: u32,
        server: u32,
    },
    /// A submission with this byte all over its digest.
    Submits {
        client: u32,
        digest: u8,
    },
    Tells {
        server: u32,
        client: u32,
        late: bool,
    },
    /// A Commit to a digest of ones, and a Reveal of nine zeros.
    RevealsAnother(u32),
    /// An inventory with client 0's submission of a digest of ones, and one of client 1 without a signature.
    Lists(u32),
}

/// What is changed of a round after it was played.
#[derive(Clone, Copy)]
pub enum Change {
    Nothing,
    /// The ciphertext that a server shows.
    Shown(u32),
    /// The output of the body.
    Output,
}

fn server(j: u32) -> SignerId {
    SignerId::Server(ServerId(j))
}

fn client(i: u32) -> SignerId {
    SignerId::Client(ClientId(i))
}

fn turn(bits: &mut Bits) {
    if K < bits.len() {
        bits.flip(K);
    }
}

fn changed(mut played: Played, change: Change) -> Result<Played, Fail> {
    match change {
        Change::Nothing => {}
        Change::Shown(j) => turn(played.sums.get_mut(j as usize).ok_or("a server")?),
        Change::Output => turn(&mut played.body.out),
    }
    Ok(played)
}

/// Adds the envelope of a statement.
fn hear(
    alloc: Global,
    played: &Played,
    who: SignerId,
    statement: &[u8],
    heard: &mut Vec<Vec<u8>>,
) -> Result<(), Fail> {
    heard.push(sealed(alloc, &played.dealt, who, statement)?)?;
    Ok(())
}

/// Adds what server j opens, with the bits of these clients turned.
fn hear_opening(
    alloc: Global,
    played: &Played,
    j: u32,
    framed: &[u32],
    heard: &mut Vec<Vec<u8>>,
) -> Result<(), Fail> {
    let pads = pad_bits(alloc, played, j, framed)?;
    hear(alloc, played, server(j), &pads, heard)?;
    let shown = shown(alloc, played, j)?;
    hear(alloc, played, server(j), &shown, heard)
}

/// Adds what all servers open, with the bit of a client turned by one of them.
fn hear_openings(
    alloc: Global,
    played: &Played,
    framed: Option<(u32, u32)>,
    heard: &mut Vec<Vec<u8>>,
) -> Result<(), Fail> {
    for j in 0..played.dealt.roster.servers() {
        match framed {
            Some((by, i)) if by == j => hear_opening(alloc, played, j, &[i], heard)?,
            _ => hear_opening(alloc, played, j, &[], heard)?,
        }
    }
    Ok(())
}

/// Adds a rebuttal of client i that carries pad bits of server j, in which the bits of these clients are turned.
fn hear_rebuttal(
    alloc: Global,
    played: &Played,
    i: u32,
    j: u32,
    framed: &[u32],
    heard: &mut Vec<Vec<u8>>,
) -> Result<(), Fail> {
    let pads = pad_bits(alloc, played, j, framed)?;
    let carried = sealed(alloc, &played.dealt, server(j), &pads)?;
    let rebuttal = rebuttal(alloc, played, i, j, &carried)?;
    hear(alloc, played, client(i), &rebuttal, heard)
}

fn hear_another_reveal(
    alloc: Global,
    played: &Played,
    j: u32,
    heard: &mut Vec<Vec<u8>>,
) -> Result<(), Fail> {
    let committed = commit(alloc, played, [1; 32])?;
    hear(alloc, played, server(j), &committed, heard)?;
    let revealed = reveal(alloc, played, &Bits::zeros(alloc, 9)?)?;
    hear(alloc, played, server(j), &revealed, heard)
}

/// The signature of client 0's submission of a digest of ones, which stands behind tag, number, length and the statement.
fn signature(alloc: Global, played: &Played) -> Result<Vec<u8>, Fail> {
    let statement = submission(alloc, played, 0, [1; 32])?;
    let envelope = sealed(alloc, &played.dealt, client(0), &statement)?;
    let signature = envelope
        .get(9..)
        .and_then(|rest| rest.get(statement.len()..));
    Ok(signature.ok_or("a signature")?.to_vec(alloc)?)
}

fn hear_inventory(
    alloc: Global,
    played: &Played,
    j: u32,
    heard: &mut Vec<Vec<u8>>,
) -> Result<(), Fail> {
    let mut entries = Vec::new(alloc);
    entries.push((0, [1; 32], signature(alloc, played)?))?;
    entries.push((1, [1; 32], Vec::new(alloc)))?;
    let held = inventory(alloc, played, &entries)?;
    hear(alloc, played, server(j), &held, heard)
}

/// Adds what is heard of a client.
fn hear_client(
    alloc: Global,
    played: &Played,
    step: Heard,
    heard: &mut Vec<Vec<u8>>,
) -> Result<(), Fail> {
    match step {
        Heard::Concedes(i) => hear(alloc, played, client(i), &concede(alloc, played)?, heard),
        Heard::RebutsBadly {
            client: i,
            server: j,
        } => hear_rebuttal(alloc, played, i, j, &[], heard),
        Heard::Rebuts {
            client: i,
            server: j,
        } => hear_rebuttal(alloc, played, i, j, &[i], heard),
        Heard::Submits { client: i, digest } => {
            let submitted = submission(alloc, played, i, [digest; 32])?;
            hear(alloc, played, client(i), &submitted, heard)
        }
        _ => Ok(()),
    }
}

/// Adds what is heard.
fn hear_step(
    alloc: Global,
    played: &Played,
    step: Heard,
    heard: &mut Vec<Vec<u8>>,
) -> Result<(), Fail> {
    match step {
        Heard::Openings => hear_openings(alloc, played, None, heard),
        Heard::OpeningsThatFrame { server, client } => {
            hear_openings(alloc, played, Some((server, client)), heard)
        }
        Heard::Tells {
            server: j,
            client,
            late,
        } => {
            let told = receipt(alloc, played, client, late)?;
            hear(alloc, played, server(j), &told, heard)
        }
        Heard::RevealsAnother(j) => hear_another_reveal(alloc, played, j, heard),
        Heard::Lists(j) => hear_inventory(alloc, played, j, heard),
        _ => hear_client(alloc, played, step, heard),
    }
}

fn hear_all(alloc: Global, played: &Played, steps: &[Heard]) -> Result<Vec<Vec<u8>>, Fail> {
    let mut heard = Vec::new(alloc);
    for step in steps {
        hear_step(alloc, played, *step, &mut heard)?;
    }
    Ok(heard)
}

/// Whether the verdict on what was heard blames just these and tells just these as silent.
fn is_verdict_on(
    alloc: Global,
    played: &Played,
    heard: &[Vec<u8>],
    blamed: &[(Member, Fault)],
    silent: &[Member],
) -> Result<bool, Fail> {
    let heard = opened(alloc, &played.dealt.roster, heard)?;
    let verdict = judged(alloc, played, &heard)?;
    Ok(verdict.blamed.get() == blamed && verdict.silent.get() == silent)
}

fn played(alloc: Global, servers: u32, jam: Jam, change: Change) -> Result<Played, Fail> {
    let spec = group(3, servers).ok_or("a group")?;
    changed(play(alloc, &spec, K, jam)?, change)
}

/// Whether a round of three clients and so many servers, which is played and then changed so, is judged so on what was heard.
pub fn is_judged(
    alloc: Global,
    servers: u32,
    jam: Jam,
    change: Change,
    steps: &[Heard],
    blamed: &[(Member, Fault)],
    silent: &[Member],
) -> Result<bool, Fail> {
    let played = played(alloc, servers, jam, change)?;
    let heard = hear_all(alloc, &played, steps)?;
    is_verdict_on(alloc, &played, &heard, blamed, silent)
}
