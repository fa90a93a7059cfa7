ghost use Rattle.std.specs.Prelude.{◌≡◌, ◌==◌, ℕ, cond, OnOk};
ghost use Rattle.dn_flight.specs.Arena.{member_number, ends_at, no_ends, without_from, IsKnown};

use dn_memory::NoMemory;
use dn_nodes::NONE;
use dn_wire::Member;
use std::alloc::Global;
use std::collections::BTreeMap;

/// The places of the first and the last message to a member, and of the first and the last from it.
#[derive(Clone, Copy, Debug, PartialEq, Eq)]
pub(crate) struct Ends {
    pub(crate) to_first: u32,
    pub(crate) to_last: u32,
    pub(crate) from_first: u32,
    pub(crate) from_last: u32,
}

impl Ends {
    pub(crate) const EMPTY: Ends = Ends {
        to_first: NONE,
        to_last: NONE,
        from_first: NONE,
        from_last: NONE,
    };
}

/// Members by number.
pub(crate) fn member_number(m: Member) -> u64
    ensures { result ≡ member_number m }
{
    match m {
        Member::Client(client) => 2 * client.0 as u64,
        Member::Server(server) => 2 * server.0 as u64 + 1,
    }
}

/// The ends of each member's two lists, by the member's number.
#[derive(Drop)]
pub(crate) struct Heads {
    pub(crate) held: BTreeMap<u64, Ends>,
}

impl Heads {
    /// No member has messages.
    pub(crate) fn make(alloc: Global) -> Heads
        ensures { (q : ℕ) → ends_at result.held q ≡ no_ends }
    {
        Heads {
            held: BTreeMap::new(alloc),
        }
    }

    /// The member's ends.
    pub(crate) fn get(&self, k: u64) -> Ends
        ensures { result ≡ ends_at self.now.held k }
    {
        match self.held.get(&k) {
            Some(ends) => *ends,
            None => Ends::EMPTY,
        }
    }

    /// Makes room for the member's ends, which stay.
    pub(crate) fn room(&mut self, k: u64) -> Result<(), NoMemory>
        ensures same { (q : ℕ) → ends_at self.new.held q ≡ ends_at self.old.held q }
        ensures known { OnOk result (IsKnown self.new.held k) }
        ensures stay { (q : ℕ) → IsKnown self.old.held q → IsKnown self.new.held q }
    {
        if self.held.contains_key(&k) {
            return Ok(());
        }
        self.held.insert(k, Ends::EMPTY)?;
        Ok(())
    }

    /// Makes these the member's ends.
    pub(crate) fn set(&mut self, k: u64, ends: Ends)
        requires { IsKnown self.old.held k }
        ensures set { (q : ℕ) → ends_at self.new.held q ≡ cond (q == k) ends (ends_at self.old.held q) }
        ensures stay { (q : ℕ) → IsKnown self.old.held q → IsKnown self.new.held q }
    {
        let Ok(_) = self.held.insert(k, ends) else {
            unreachable!()
        };
    }

    /// Leaves the member's list of messages from it without ends.
    pub(crate) fn end_from(&mut self, k: u64)
        ensures { (q : ℕ) → ends_at self.new.held q ≡ cond (q == k) (without_from (ends_at self.old.held q)) (ends_at self.old.held q) }
    {
        if self.held.contains_key(&k) {
            let ends = Ends {
                from_first: NONE,
                from_last: NONE,
                ..self.get(k)
            };
            self.set(k, ends);
        }
    }
}
