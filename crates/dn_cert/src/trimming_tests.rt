ghost use Rattle.std.specs.Prelude.{◌≡◌, ◌≤◌, IfOk};
ghost use Rattle.dn_cert.specs.Trim.{IsInventory};

use crate::{make_body, trim};
use dn_bits::Bits;
use dn_memory::NoMemory;
use dn_records::{Entries, Entry, Inventory, Listed};
use dn_roster::Roster;
use dn_wire::{Bytes, ClientId, Round, ServerId};
use std::alloc::Global;
use std::test::Fail;

/// The inventory of a server that holds one client's submission.
fn inventory_of_one(alloc: Global, client: u32, digest: [u8; 32]) -> Result<Inventory, NoMemory>
    ensures { IfOk result IsInventory }
{
    let entry = Entry {
        client: ClientId(client),
        digest,
        signature: Bytes::of(Vec::new(alloc)),
    };
    Ok(Inventory {
        r: Round(1),
        prev: Round(0),
        entries: Entries::of(vec![in alloc; entry]?),
    })
}

#[test]
fn a_client_at_two_servers_has_one_row(rt: HostRuntime) -> Result<(), Fail> {
    let inventories = vec![in rt.alloc();
        inventory_of_one(rt.alloc(), 7, [1; 32])?,
        inventory_of_one(rt.alloc(), 4, [2; 32])?,
        inventory_of_one(rt.alloc(), 7, [3; 32])?,
    ]?;
    let listed = trim(rt.alloc(), &inventories)?;
    assert_eq!(rt; listed.len(), 2);
    assert_eq!(rt;
        listed.get(0).copied(),
        Some(Listed {
            client: ClientId(4),
            server: ServerId(1),
            digest: [2; 32]
        })
    );
    assert_eq!(rt;
        listed.get(1).copied(),
        Some(Listed {
            client: ClientId(7),
            server: ServerId(0),
            digest: [1; 32]
        })
    );
    Ok(())
}

#[test]
fn no_inventories_list_nobody(rt: HostRuntime) -> Result<(), Fail> {
    assert!(rt; trim(rt.alloc(), &[])?.is_empty());
    Ok(())
}

/// The roster of one client and one server, of this version.
fn small_roster(alloc: Global, version: u8) -> Result<Roster, NoMemory>
    requires { (1 ≤ version) × (version ≤ 2) }
    ensures { IfOk result (λ r. r.version ≡ version) }
{
    Ok(Roster::make(
        version,
        2,
        5,
        5,
        vec![in alloc; [1; 56]]?,
        vec![in alloc; [2; 56]]?,
        vec![in alloc; [3; 56]]?,
        vec![in alloc; [4; 32]]?,
    ))
}

#[test]
fn a_thin_body_has_a_list_alone(rt: HostRuntime) -> Result<(), Fail> {
    let roster = small_roster(rt.alloc(), 2)?;
    let none = Bits::zeros(rt.alloc(), 0)?;
    let body = make_body(
        rt.alloc(),
        &roster,
        Round(2),
        Round(1),
        &[],
        &[],
        &none,
        true,
    )?;
    assert_eq!(rt;
        (body.version, body.r, body.prev, body.thin),
        (2, Round(2), Round(1), true)
    );
    assert!(rt; body.digests.get().is_empty() && body.out.len() == 0);
    Ok(())
}

#[test]
fn a_body_has_its_fields(rt: HostRuntime) -> Result<(), Fail> {
    let roster = small_roster(rt.alloc(), 1)?;
    let row = Listed {
        client: ClientId(0),
        server: ServerId(0),
        digest: [5; 32],
    };
    let out = Bits::from_bytes(rt.alloc(), &[0x80], 8)?;
    let body = make_body(
        rt.alloc(),
        &roster,
        Round(9),
        Round(3),
        &[row],
        &[[6; 32]],
        &out,
        false,
    )?;
    assert_eq!(rt;
        (body.version, body.r, body.prev, body.thin),
        (1, Round(9), Round(3), false)
    );
    assert_eq!(rt; body.listed.get(), [row].as_slice());
    assert_eq!(rt; body.digests.get(), [[6; 32]].as_slice());
    assert!(rt; body.out.equals(&out));
    Ok(())
}
