ghost use Rattle.std.specs.Prelude.{◌≡◌, ◌++◌, map, IfOk, OnOk};
ghost use Rattle.dn_bits.specs.Bits.{below};
ghost use Rattle.dn_server.specs.Server.{server_member};
ghost use Rattle.dn_puppets.specs.Injections.{put_by};

use dn_memory::NoMemory;
use dn_wire::{Bytes, Member, ServerId};
use std::alloc::Global;

/// What a corrupt member puts to another.
#[derive(Drop)]
pub struct Injection {
    pub from: Member,
    pub to: Member,
    pub payload: Bytes,
}

/// A payload is put to each of these members, in this order.
pub fn put_to(
    alloc: Global,
    from: Member,
    to: &[Member],
    payload: &[u8],
    out: &mut Vec<Injection>,
) -> Result<(), NoMemory>
    ensures { OnOk result (out.new.items ≡ out.old.items ++ put_by from payload.now to.now) }
{
    for member in to {
        out.push(Injection {
            from,
            to: *member,
            payload: Bytes::of(Vec::from_slice(alloc, payload)?),
        })?;
    }
    Ok(())
}

/// All servers, by number.
pub fn all_servers(alloc: Global, servers: u32) -> Result<Vec<Member>, NoMemory>
    ensures { IfOk result (λ v. v.items ≡ map server_member (below servers)) }
{
    let mut members = Vec::new(alloc);
    for j in 0..servers {
        members.push(Member::Server(ServerId(j)))?;
    }
    Ok(members)
}
