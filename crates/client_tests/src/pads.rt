// The plain text of a client lies under its pads with all servers.
use crate::asking::{plain, say};
use crate::scene::{GROUP, ME, client, dealt};
use dn_bits::Bits;
use dn_client::{Client, SubmitFault};
use dn_pads::pad;
use dn_roster::pair_seed;
use dn_wire::{Round, ServerId};
use std::alloc::Global;
use std::test::Fail;

/// The ciphertext of round 1.
fn ciphertext(client: &mut Client) -> Result<Bits, SubmitFault> {
    Ok(client.submission(Round(1))?.cipher)
}

/// A ciphertext of round 1 without its pads.
fn bare(alloc: Global, cipher: &Bits) -> Result<Bits, Fail> {
    let mut bare = cipher.copy(alloc)?;
    for j in 0..2 {
        let pad = pad(
            alloc,
            &pair_seed(&GROUP, ME, ServerId(j)),
            Round(1),
            bare.len(),
        )?;
        if pad.len() == bare.len() {
            bare.xor_into(&pad);
        }
    }
    Ok(bare)
}

/// What a client sends that has a text to say, and what it says that it sends.
fn first_round(alloc: Global) -> Result<(Bits, Bits), Fail> {
    let dealt = dealt(alloc)?;
    let mut client = client(alloc, &dealt)?;
    say(&mut client)?;
    let cipher = ciphertext(&mut client)?;
    Ok((bare(alloc, &cipher)?, plain(alloc, &client, 1)?))
}

#[test]
fn a_request_lies_under_all_pads(rt: HostRuntime) -> Result<(), Fail> {
    let request = Bits::from_bytes(rt.alloc(), &[0x80], 8)?;
    let (bare, plain) = first_round(rt.alloc())?;
    assert!(rt; bare.equals(&request));
    assert!(rt; plain.equals(&request));
    Ok(())
}
