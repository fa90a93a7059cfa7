ghost use Rattle.std.specs.Prelude.{◌≡◌, ℕ, false, OnOk};
ghost use Rattle.dn_wire.specs.declared.ids.Member.{Member};

use dn_memory::NoMemory;
use dn_wire::Member;
use std::alloc::Global;
use std::collections::BTreeSet;

/// Who had put which payload: the numbers of payloads and members.
#[derive(Drop)]
pub struct Puts {
    keys: BTreeSet<(u64, u64)>,
}

ghost use Rattle.dn_verify.specs.Course.{with_put};
ghost use Rattle.dn_verify.specs.Kept.{has_put, member_number};

fn member_number(member: Member) -> u64
    ensures { result ≡ member_number member }
{
    match member {
        Member::Client(i) => 2 * u64::from(i.0),
        Member::Server(j) => 2 * u64::from(j.0) + 1,
    }
}

impl Puts {
    pub fn new(alloc: Global) -> Puts
        ensures { (payload : ℕ) (m : Member) → has_put result payload m ≡ false }
    {
        Puts {
            keys: BTreeSet::new(alloc),
        }
    }

    pub fn has(&self, payload: usize, member: Member) -> bool
        ensures { result ≡ has_put self.now payload member }
    {
        self.keys.contains(&(payload as u64, member_number(member)))
    }

    /// A member puts a payload, if anybody does.
    pub fn note(&mut self, payload: usize, member: Option<Member>) -> Result<(), NoMemory>
        ensures { OnOk result ((p : ℕ) (m : Member) → has_put self.new p m ≡ with_put member payload (has_put self.old) p m) }
    {
        let Some(member) = member else {
            return Ok(());
        };
        self.keys.insert((payload as u64, member_number(member)))?;
        Ok(())
    }
}
