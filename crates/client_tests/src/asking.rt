// What a client is asked for, step by step, and what it is seen to do.
use crate::scene::{ME, Shows, certificate, challenge, client, dealt, true_bit};
use dn_accuse::Judging;
use dn_bits::Bits;
use dn_cert::Rules;
use dn_client::{AccuseFault, AnswerFault, Client, HoldFault, Submission, SubmitFault};
use dn_hash::cipher_digest;
use dn_records::Statement;
use dn_seal::{Dealt, unseal};
use dn_wire::{Round, SignerId, SlotId};
use std::alloc::Global;
use std::test::Fail;

/// Whom a body lists.
#[derive(Clone, Copy)]
pub enum Lists {
    /// The client, with the digest of what it submitted for the round.
    Own,
    /// The client, with another digest.
    Other,
    Nobody,
}

/// The output of a round.
#[derive(Clone, Copy)]
pub enum Out {
    /// The client's plain text of the round.
    Own,
    /// The same with the bit at place 100 turned.
    Garbled,
    /// Ones at the places 8 to 263 of 520 bits, and zeros.
    Jammed,
    Zeros(u32),
}

/// A place of round 2.
#[derive(Clone, Copy)]
pub enum At {
    Place(u32),
    /// The first place of the jammed ones at which the client's own bit is this.
    OfOnes(bool),
    /// The first place behind them at which the client's own bit is 0.
    OfZeros,
}

/// What a client is asked for.
#[derive(Clone, Copy)]
pub enum Asked {
    /// To say a text of two bytes.
    Say,
    Submit(u64),
    /// To submit for each round from this one to before that.
    SubmitEach(u64, u64),
    Hold {
        r: u64,
        prev: u64,
        lists: Lists,
        out: Out,
    },
    Accuse(u64, At),
    /// To accuse at so many places of the jammed ones.
    AccuseEach(u32),
    /// To answer a challenge at this place of a round, in which the servers show this.
    Answer(u64, u32, [Shows; 2]),
    /// A challenge with server 0 alone.
    AnswerOne(u64, u32),
    /// A challenge for the first place of round 1, from 2 on, at which the true bit of server 1 is this, in which server 1 shows no bit.
    AnswerShort(bool),
    /// What can be read of a round.
    Look(u64),
    Leave,
}

/// What it is seen to do.
#[derive(Clone, Copy, Debug, PartialEq, Eq)]
pub enum Does {
    Nothing,
    /// It submits so many bits, and the same again.
    Submits(u32),
    Holds,
    /// It accuses at that place, by an envelope that unseals, and gives it again.
    Accuses,
    /// Where its slot was in the round for which it submitted, where it begins in the round that it holds, and whether a bit of it was changed.
    Shows {
        range: Option<(u32, u32)>,
        start: Option<u32>,
        jammed: bool,
    },
    /// It gives a good rebuttal of this server.
    Rebuts(u32),
    RefusesToSubmit(SubmitFault),
    RefusesToHold(HoldFault),
    RefusesToAccuse(AccuseFault),
    RefusesToAnswer(AnswerFault),
}

/// The client's submission of a round, twice.
fn submitted(client: &mut Client, r: u64) -> Result<(Submission, Submission), SubmitFault> {
    if r == 0 {
        return Err(SubmitFault::NoMemory);
    }
    let first = client.submission(Round(r))?;
    let again = client.submission(Round(r))?;
    Ok((first, again))
}

fn submit(client: &mut Client, r: u64) -> Result<Does, Fail> {
    match submitted(client, r) {
        Ok((first, again)) => {
            if first.envelope.equals(&again.envelope) && first.cipher.equals(&again.cipher) {
                Ok(Does::Submits(first.cipher.len()))
            } else {
                Err(Fail::from("another submission"))
            }
        }
        Err(fault) => Ok(Does::RefusesToSubmit(fault)),
    }
}

fn submit_each(client: &mut Client, from: u64, past: u64) -> Result<Does, Fail> {
    let mut last = Does::Nothing;
    for r in from..past {
        last = submit(client, r)?;
    }
    Ok(last)
}

/// The client's plain text of a round.
pub fn plain(alloc: Global, client: &Client, r: u64) -> Result<Bits, Fail> {
    Ok(client.plain(Round(r)).ok_or("made")?.copy(alloc)?)
}

/// The digest of the ciphertext that the client submitted for a round.
fn digest(alloc: Global, client: &mut Client, r: u64) -> Result<[u8; 32], Fail> {
    let (submission, _) = submitted(client, r)?;
    let mut bytes = Vec::new(alloc);
    submission.cipher.write_bytes(alloc, &mut bytes)?;
    Ok(cipher_digest(r, ME.0, &bytes))
}

fn listed(
    alloc: Global,
    client: &mut Client,
    r: u64,
    lists: Lists,
) -> Result<Option<[u8; 32]>, Fail> {
    match lists {
        Lists::Own => Ok(Some(digest(alloc, client, r)?)),
        Lists::Other => Ok(Some([0; 32])),
        Lists::Nobody => Ok(None),
    }
}

fn jammed(alloc: Global) -> Result<Bits, Fail> {
    let mut bytes = [0; 65];
    for byte in bytes[1..33].iter_mut() {
        *byte = 0xff;
    }
    Ok(Bits::from_bytes(alloc, &bytes, 520)?)
}

fn output(alloc: Global, client: &Client, r: u64, out: Out) -> Result<Bits, Fail> {
    match out {
        Out::Own => plain(alloc, client, r),
        Out::Garbled => {
            let mut bits = plain(alloc, client, r)?;
            if 100 < bits.len() {
                bits.flip(100);
            }
            Ok(bits)
        }
        Out::Jammed => jammed(alloc),
        Out::Zeros(bits) => Ok(Bits::zeros(alloc, bits)?),
    }
}

fn hold(
    alloc: Global,
    dealt: &Dealt,
    client: &mut Client,
    r: u64,
    prev: u64,
    listed: Option<[u8; 32]>,
    out: &Bits,
) -> Result<Does, Fail> {
    let held = certificate(alloc, dealt, r, prev, listed, out)?;
    match client.hold(&held) {
        Ok(()) => Ok(Does::Holds),
        Err(fault) => Ok(Does::RefusesToHold(fault)),
    }
}

/// The first place from `first` to below `past` at which the client's own bit is this.
fn own_place(client: &Client, own: bool, first: u32, past: u32) -> Result<u32, Fail> {
    let plain = client.plain(Round(2)).ok_or("made")?;
    for k in first..past {
        if plain.get_or_zero(k) == own {
            return Ok(k);
        }
    }
    Err(Fail::from("no such place"))
}

fn place(client: &Client, at: At) -> Result<u32, Fail> {
    match at {
        At::Place(k) => Ok(k),
        At::OfOnes(own) => own_place(client, own, 8, 264),
        At::OfZeros => own_place(client, false, 264, 520),
    }
}

/// Whether the envelope is an accusation of the client's slot at place k of round r.
fn is_accusation(
    alloc: Global,
    dealt: &Dealt,
    envelope: &[u8],
    r: u64,
    k: u32,
) -> Result<bool, Fail> {
    let said = unseal(alloc, &dealt.roster, envelope)?;
    let fields = match said.statement() {
        Statement::Accusation { r, slot, k } => (r.0, slot.0, *k),
        _ => return Ok(false),
    };
    Ok(said.signer() == SignerId::Slot(SlotId(0)) && fields == (r, 0, k))
}

/// The client's accusation, twice.
fn accused(client: &mut Client, r: u64, k: u32) -> Result<(Vec<u8>, Vec<u8>), AccuseFault> {
    let first = client.accuse(Round(r), k)?;
    let again = client.accuse(Round(r), k)?;
    Ok((first, again))
}

fn accuse(alloc: Global, dealt: &Dealt, client: &mut Client, r: u64, k: u32) -> Result<Does, Fail> {
    match accused(client, r, k) {
        Ok((first, again)) => {
            if first.as_slice() == again.as_slice() && is_accusation(alloc, dealt, &first, r, k)? {
                Ok(Does::Accuses)
            } else {
                Err(Fail::from("another accusation"))
            }
        }
        Err(fault) => Ok(Does::RefusesToAccuse(fault)),
    }
}

fn accuse_each(
    alloc: Global,
    dealt: &Dealt,
    client: &mut Client,
    count: u32,
) -> Result<Does, Fail> {
    let mut k = 7u32;
    let mut last = Does::Nothing;
    for _ in 0..count {
        k = own_place(client, false, k.saturating_add(1), 264)?;
        last = accuse(alloc, dealt, client, 2, k)?;
    }
    Ok(last)
}

/// The server that the envelope rebuts, by a good rebuttal of the client.
fn rebutted(alloc: Global, dealt: &Dealt, envelope: &[u8]) -> Result<u32, Fail> {
    let said = unseal(alloc, &dealt.roster, envelope)?;
    if dealt.roster.clients() == 0 {
        return Err(Fail::from("no client"));
    }
    match said.statement() {
        Statement::Rebuttal { server, .. } => {
            if Judging.rebuttal_good(alloc, &dealt.roster, ME, said.statement())? {
                Ok(server.0)
            } else {
                Err(Fail::from("no good rebuttal"))
            }
        }
        _ => Err(Fail::from("another statement")),
    }
}

fn answer(
    alloc: Global,
    dealt: &Dealt,
    client: &mut Client,
    r: u64,
    k: u32,
    servers: &[Shows],
) -> Result<Does, Fail> {
    let challenge = challenge(alloc, dealt, r, k, servers)?;
    match client.answer(&challenge) {
        Ok(envelope) => Ok(Does::Rebuts(rebutted(alloc, dealt, &envelope)?)),
        Err(fault) => Ok(Does::RefusesToAnswer(fault)),
    }
}

fn answer_short(
    alloc: Global,
    dealt: &Dealt,
    client: &mut Client,
    pad: bool,
) -> Result<Does, Fail> {
    for k in 2..8 {
        if true_bit(1, 1, k) == pad {
            return answer(alloc, dealt, client, 1, k, &[Shows::True, Shows::Nothing]);
        }
    }
    Err(Fail::from("no such place"))
}

fn look(client: &Client, r: u64) -> Does {
    Does::Shows {
        range: client.slot_range(Round(r)),
        start: client.slot_start(Round(r)),
        jammed: client.first_jammed(Round(r)).is_some(),
    }
}

pub fn say(client: &mut Client) -> Result<Does, Fail> {
    client.say(b"hi")?;
    Ok(Does::Nothing)
}

fn leave(client: &mut Client) -> Does {
    client.leave();
    Does::Nothing
}

fn ask(alloc: Global, dealt: &Dealt, client: &mut Client, asked: Asked) -> Result<Does, Fail> {
    match asked {
        Asked::Say => say(client),
        Asked::Submit(r) => submit(client, r),
        Asked::SubmitEach(from, past) => submit_each(client, from, past),
        Asked::Hold {
            r,
            prev,
            lists,
            out,
        } => {
            let listed = listed(alloc, client, r, lists)?;
            let out = output(alloc, client, r, out)?;
            hold(alloc, dealt, client, r, prev, listed, &out)
        }
        Asked::Accuse(r, at) => {
            let k = place(client, at)?;
            accuse(alloc, dealt, client, r, k)
        }
        Asked::AccuseEach(count) => accuse_each(alloc, dealt, client, count),
        Asked::Answer(r, k, servers) => answer(alloc, dealt, client, r, k, &servers),
        Asked::AnswerOne(r, k) => answer(alloc, dealt, client, r, k, &[Shows::False]),
        Asked::AnswerShort(pad) => answer_short(alloc, dealt, client, pad),
        Asked::Look(r) => Ok(look(client, r)),
        Asked::Leave => Ok(leave(client)),
    }
}

/// The first row in which a client that is asked for all of them does another thing, with what it does.
pub fn first_other(alloc: Global, rows: &[(Asked, Does)]) -> Result<Option<(usize, Does)>, Fail> {
    let dealt = dealt(alloc)?;
    let mut client = client(alloc, &dealt)?;
    for (n, row) in rows.iter().enumerate() {
        let does = ask(alloc, &dealt, &mut client, row.0)?;
        if does != row.1 {
            return Ok(Some((n, does)));
        }
    }
    Ok(None)
}
