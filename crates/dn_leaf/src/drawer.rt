ghost use Rattle.std.specs.Prelude.{◌≡◌, ◌+◌, ◌<◌, ◌≤◌, ◌++◌, ◌∷◌, [], min, length, replicate, Some, None, IfOk, IfErr, IfSome, MatchResult};
ghost use Rattle.dn_leaf.specs.Counts.{IsDistinctBelow, HasEachOnce};
ghost use Rattle.dn_leaf.specs.Drawer.{fresh, IsSamePass};
ghost use Rattle.dn_counts.specs.Numbers.{first_some};
ghost use Rattle.dn_leaf.specs.Rule.{past_count};

use super::rule::{Both, Draw, Leaves, Limits, Look, One};
use super::view::View;
use atomic_table::{Seat, Table};
use dn_memory::NoMemory;
use std::alloc::Global;
use std::marker::Model;

/// All numbers below the count are drawn.
#[derive(Clone, Copy, Debug, PartialEq, Eq)]
pub struct Exhausted {
    /// The number of draws that the pass found where it first was at least the count.
    pub seen: u64,
}

/// Gives each number from 0 to below its count once. Contracts see which drawer it is, with its count and how many
/// passes it was made with.
#[derive(Drop)]
pub struct Drawer {
    table: Table<(), View, Limits, Leaves, Global>,
    count: u32,
}

impl Model for Drawer {
    ghost use Rattle.std.specs.Prelude.{◌≡◌, ◌<◌, ◌≤◌, ◌^◌};
    ghost use Rattle.dn_leaf.specs.Drawer.{DrawerId};

    ghost Value = { DrawerId };

    ghost view = { λ d. record { table = d.table.shared.table_id; count = d.table.shared.key.count; passes = d.table.shared.key.passes } };

    ghost invariant = { λ d. (d.count ≡ d.table.shared.key.count) × (d.count < 2 ^ 32) × (d.table.shared.key.passes ≤ 65536) × (d.table.shared.table_id.words ≡ 1) };
}

/// What one thread draws with. Contracts see its drawer, how many passes it stands for, the numbers that it drew, in
/// order, and the number of draws that it first found to be at least the count.
#[derive(Drop)]
pub struct LeafPass {
    seat: Seat<(), View>,
    seen: Option<u64>,
}

impl Model for LeafPass {
    ghost use Rattle.dn_leaf.specs.Drawer.{PassView};
    ghost use Rattle.dn_leaf.specs.Rule.{IsPass};

    ghost Value = { PassView };

    ghost view = { λ p. record { drawer = record { table = p.seat.table_id; count = p.seat.me.0.count; passes = p.seat.me.0.passes }; stands = p.seat.me.0.stands; draws = p.seat.me.0.draws; seen = p.seen } };

    ghost invariant = { λ p. IsPass p.seat.me p.seen };
}

impl Drawer {
    /// A drawer of the numbers from 0 to below `count`, with all passes that it ever has. Each of them stands for itself
    /// and has drawn nothing.
    pub fn make(alloc: Global, count: u32, passes: u32) -> Result<(Drawer, Vec<LeafPass>), NoMemory>
        requires { (1 ≤ passes) × (passes ≤ 65536) }
        ensures limits { IfOk result (λ r. (r.0.count ≡ count) × (r.0.passes ≡ passes)) }
        ensures passes { IfOk result (λ r. r.1.items ≡ replicate passes (fresh r.0)) }
    {
        let limits = Limits { count, passes };
        let mut all = Vec::with_capacity(alloc, passes as usize)?;
        let (table, mut first) = Table::of_words(alloc, &[0], &limits)?;
        for _ in 0..passes - 1 {
            let seat = table.shared.split_seat::<One>(&mut first);
            all.push_reserved(LeafPass { seat, seen: None });
        }
        all.push_reserved(LeafPass {
            seat: first,
            seen: None,
        });
        Ok((Drawer { table, count }, all))
    }

    /// A number below the count that no other draw of this drawer gives. `Exhausted` comes exactly where the pass has found
    /// at least as many draws as the count; from then on it takes no further step and gives the same answer.
    pub fn draw(&self, pass: &mut LeafPass) -> Result<u32, Exhausted>
        requires { pass.old.drawer ≡ self.now }
        ensures pass { IsSamePass pass.old pass.new }
        ensures drawn { IfOk result (λ q. (q < self.now.count) × (pass.new.draws ≡ pass.old.draws ++ q ∷ []) × (pass.old.seen ≡ None) × (pass.new.seen ≡ None)) }
        ensures exhausted { IfErr result (λ e. (self.now.count ≤ e.seen) × (pass.new.draws ≡ pass.old.draws) × (pass.new.seen ≡ Some e.seen)) }
        ensures again { IfSome pass.old.seen (λ n. pass.new.seen ≡ Some n) }
        ensures bound { IfErr result (λ e. e.seen ≤ self.now.count + self.now.passes) }

        // The numbers drawn by passes that have met are distinct, and a pass that stands for all has them all.
        ensures apart { IsDistinctBelow pass.new.draws self.now.count }
        ensures whole { pass.old.stands ≡ self.now.passes → MatchResult result (λ q. HasEachOnce pass.new.draws (q + 1)) (λ _. HasEachOnce pass.new.draws self.now.count) }

        // Such a pass draws them in order.
        ensures alone { pass.old.stands ≡ self.now.passes → pass.old.seen ≡ None → MatchResult result (λ q. q ≡ length pass.old.draws) (λ e. e.seen ≡ length pass.old.draws) }
    {
        if let Some(seen) = pass.seen {
            return Err(Exhausted { seen });
        }
        let found = self.table.shared.fetch_add::<Draw>(&mut pass.seat, 0, 1);
        if found < self.count as u64 {
            Ok(found as u32)
        } else {
            pass.seen = Some(found);
            Err(Exhausted { seen: found })
        }
    }

    /// The number of draws so far, of all passes, also those that were Exhausted.
    pub fn look(&self, pass: &mut LeafPass) -> u64
        requires { pass.old.drawer ≡ self.now }
        ensures pass { IsSamePass pass.old pass.new × (pass.new.draws ≡ pass.old.draws) }
        ensures seen { pass.new.seen ≡ first_some pass.old.seen (past_count self.now.count result) }
        ensures past { IfSome pass.new.seen (λ n. (self.now.count ≤ n) × (n ≤ result)) }
        ensures bound { result ≤ self.now.count + self.now.passes }

        // What the pass drew is below what it finds, and a pass that stands for all has drawn all of that.
        ensures apart { IsDistinctBelow pass.new.draws (min result self.now.count) }
        ensures whole { pass.old.stands ≡ self.now.passes → HasEachOnce pass.new.draws (min result self.now.count) }
        ensures number { pass.old.stands ≡ self.now.passes → length pass.new.draws ≡ min result self.now.count }
    {
        let found = self.table.shared.load::<Look>(&mut pass.seat, 0);
        pass.seen = noted(pass.seen, self.count, found);
        found
    }

    /// The pass then stands for both and has the numbers that both drew, all distinct.
    pub fn join(&self, pass: &mut LeafPass, other: LeafPass)
        requires { (pass.old.drawer ≡ self.now) × (other.drawer ≡ self.now) }
        ensures pass { (pass.new.drawer ≡ pass.old.drawer) × (pass.new.stands ≡ pass.old.stands + other.stands) }
        ensures draws { pass.new.draws ≡ pass.old.draws ++ other.draws }
        ensures again { IfSome (first_some pass.old.seen other.seen) (λ n. pass.new.seen ≡ Some n) }
        ensures past { IfSome pass.new.seen (λ n. self.now.count ≤ n) }
        ensures apart { IsDistinctBelow pass.new.draws self.now.count }
    {
        let LeafPass { seat, seen } = other;
        self.table.shared.join_seat::<Both>(&mut pass.seat, seat);
        let found = self.table.shared.load::<Look>(&mut pass.seat, 0);
        pass.seen = noted(earlier(pass.seen, seen), self.count, found);
    }
}

fn earlier(first: Option<u64>, second: Option<u64>) -> Option<u64>
    ensures { result ≡ first_some first second }
{
    match first {
        Some(seen) => Some(seen),
        None => second,
    }
}

// What a pass has seen after a look that found this many draws.
fn noted(seen: Option<u64>, count: u32, found: u64) -> Option<u64>
    ensures { result ≡ first_some seen (past_count count found) }
{
    if found >= count as u64 {
        earlier(seen, Some(found))
    } else {
        earlier(seen, None)
    }
}
