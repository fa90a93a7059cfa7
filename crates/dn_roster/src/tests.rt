ghost use Rattle.std.specs.Prelude.{◌≤◌};

use crate::{GroupSpec, Roster, mask_secret, member_key, pair_seed, slot_owners};
use dn_hash::group_digest;
use dn_memory::NoMemory;
use dn_wire::{ClientId, ServerId, SignerId, SlotId};
use std::alloc::Global;
use std::test::Fail;

const GROUP: GroupSpec = GroupSpec {
    version: 1,
    clients: 5,
    servers: 3,
    ots: 3,
    client_lms: 5,
    server_lms: 6,
    seed: [0; 32],
};

#[test]
fn deals_as_another_program_does(rt: HostRuntime) {
    assert_eq!(rt;
        pair_seed(&GROUP, ClientId(4), ServerId(2)),
        [
            0xb7, 0xa0, 0x5b, 0x81, 0xbe, 0xa2, 0xb4, 0xdb, 0xaa, 0xd0, 0xc5, 0xe6, 0x4e, 0x61,
            0x9c, 0xb6, 0x46, 0x98, 0x55, 0x6c, 0x34, 0x45, 0x3e, 0x1a, 0x68, 0x9c, 0xb0, 0x0a,
            0x5b, 0x58, 0xce, 0xc4,
        ]
    );
    assert_eq!(rt;
        mask_secret(&GROUP, ClientId(2)),
        [
            0x4f, 0x9b, 0x8b, 0x1d, 0xa8, 0xfa, 0x1e, 0x53, 0x8c, 0xf0, 0x3f, 0x47, 0x04, 0xc6,
            0xe0, 0x3d, 0xb7, 0xc3, 0xe8, 0xe0, 0x7d, 0x38, 0x40, 0xaa, 0xf5, 0x23, 0x1a, 0x75,
            0xdc, 0x06, 0xa6, 0x24,
        ]
    );
    let client = member_key(&GROUP, SignerId::Client(ClientId(4)));
    assert_eq!(rt;
        client.id,
        [
            0xb1, 0xed, 0x4a, 0xd9, 0xfe, 0x88, 0xc3, 0x20, 0x2a, 0x00, 0xb5, 0xc9, 0x59, 0x00,
            0x20, 0x0f,
        ]
    );
    assert_eq!(rt;
        client.seed,
        [
            0xb0, 0xfc, 0xa6, 0x53, 0x62, 0xa3, 0xa0, 0x8d, 0x51, 0x71, 0x51, 0x01, 0xf5, 0xd0,
            0x05, 0x65, 0x9f, 0xdb, 0x95, 0xeb, 0xcb, 0xb4, 0xcd, 0x51, 0xb3, 0xac, 0x68, 0xff,
            0x8b, 0x40, 0x80, 0xce,
        ]
    );
    let server = member_key(&GROUP, SignerId::Server(ServerId(2)));
    assert_eq!(rt;
        server.id,
        [
            0x84, 0x0e, 0x5b, 0x61, 0x2c, 0x0b, 0x91, 0xe7, 0x55, 0x0d, 0xe6, 0xa6, 0xbc, 0xfc,
            0xa8, 0xd1,
        ]
    );
    let slot = member_key(&GROUP, SignerId::Slot(SlotId(4)));
    assert_eq!(rt;
        slot.id,
        [
            0x6c, 0x0f, 0x27, 0x1d, 0xc1, 0xf1, 0xaf, 0xe7, 0xea, 0x1f, 0x41, 0x14, 0xa5, 0x20,
            0xaa, 0x3f,
        ]
    );
}

#[test]
fn slots_go_by_the_dealt_numbers(rt: HostRuntime) -> Result<(), Fail> {
    let owners = slot_owners(rt.alloc(), &GROUP).expect(&rt, "memory");
    let due = [
        ClientId(2),
        ClientId(3),
        ClientId(0),
        ClientId(4),
        ClientId(1),
    ];
    assert_eq!(rt; owners.as_slice(), due.as_slice());
    Ok(())
}

/// The roster of one client and one server, of this version.
fn small_roster(alloc: Global, version: u8) -> Result<Roster, NoMemory>
    requires { (1 ≤ version) × (version ≤ 2) }
{
    Ok(Roster::make(
        version,
        3,
        5,
        6,
        vec![in alloc; [1; 56]]?,
        vec![in alloc; [2; 56]]?,
        vec![in alloc; [3; 56]]?,
        vec![in alloc; [4; 32]]?,
    ))
}

#[test]
fn versions_have_digests_of_their_own(rt: HostRuntime) -> Result<(), Fail> {
    let alloc = rt.alloc();
    let first = small_roster(alloc, 1)?;
    let second = small_roster(alloc, 2)?;
    assert_eq!(rt; [first.version(), second.version()], [1, 2]);
    assert_eq!(rt;
        first.digest(),
        [
            0x48, 0x8e, 0x30, 0x21, 0xc8, 0x1a, 0xc6, 0x9d, 0xde, 0xe7, 0xe7, 0x6f, 0x76, 0x53,
            0xdd, 0xc5, 0xfd, 0xa8, 0x68, 0x4f, 0x2d, 0xc9, 0xac, 0x70, 0x78, 0x39, 0x9d, 0xae,
            0x81, 0xc8, 0xc2, 0xf0,
        ]
    );
    assert_eq!(rt;
        second.digest(),
        [
            0xf3, 0xa9, 0x92, 0x63, 0x4b, 0xc2, 0x72, 0x49, 0x14, 0x9c, 0x2d, 0x63, 0xca, 0xad,
            0x37, 0x7a, 0x88, 0xdb, 0xee, 0xb4, 0x32, 0x3f, 0x15, 0x01, 0x25, 0x94, 0x2e, 0x46,
            0xfd, 0x32, 0xde, 0xe7,
        ]
    );
    Ok(())
}

#[test]
fn a_roster_has_its_bytes(rt: HostRuntime) -> Result<(), Fail> {
    let alloc = rt.alloc();
    let roster = small_roster(alloc, 1)?;
    let bytes = roster.roster_bytes(alloc).expect(&rt, "memory");
    assert_eq!(rt; bytes.len(), 20 + 3 * 56 + 32);
    assert_eq!(rt; roster.digest(), group_digest(1, &bytes));
    let second = small_roster(alloc, 2)?;
    assert!(rt; second.roster_bytes(alloc)? == bytes);
    assert_eq!(rt; second.digest(), group_digest(2, &bytes));
    let signed = roster
        .signed_bytes(alloc, SignerId::Slot(SlotId(0)), &[7])
        .expect(&rt, "memory");
    assert_eq!(rt; signed.len(), 6 + 32 + 1 + 4 + 1);
    assert!(rt; signed.ends_with(&[3, 0, 0, 0, 0, 7]));
    Ok(())
}
