// The gate.
ghost use Rattle.std.specs.Prelude.{◌≡◌, ◌⊎◌, ℕ, ◌+◌, ◌<◌, ◌≤◌, ◌++◌, ◌∷◌, [], Some, None, IfOk, IfErr, IfSome, Option, List, All, length, map, slice_index, slice_get};
ghost use Rattle.dn_counts.specs.Numbers.{least, first_some};
ghost use Rattle.dn_gate.specs.Rule.{closed, was, merge_draws};
ghost use Rattle.dn_gate.specs.History.{IsHistory};
ghost use Rattle.dn_gate.specs.Order.{IsMerge};
ghost use Rattle.dn_gate.specs.Pass.{IsReady, IsSamePass, included, came_late, IsFresh, IsNew, numbers_of};

use super::already_closed::AlreadyClosed;
use super::closing::Closing;
use super::pass::GatePass;
use super::rule::{Both, Close, GateRule, One, Right, Settle, Terms};
use super::steps::{CLOSED, Drawn, claim, deposit, draw, mark};
use super::told::Told;
use super::view::View;
use atomic_table::Table;
use dn_memory::NoMemory;
use dn_wire::ClientId;
use std::alloc::Global;
use std::marker::Model;
use std::snapshot::Snapshot;

/// The gate. Contracts see which gate it is.
#[derive(Drop)]
pub struct Gate<T: Drop> {
    pub(crate) table: Table<Option<T>, View<T>, Terms, GateRule, Global>,
    pub(crate) clients: u32,
}

impl<T: Drop> Model for Gate<T> {
    ghost use Rattle.std.specs.Prelude.{◌≡◌, ◌≤◌, ◌+◌};
    ghost use Rattle.dn_gate.specs.Pass.{GateId, numbers_of};

    ghost Value = { GateId };

    ghost view = { λ g. record { table = g.table.shared.table_id; clients = g.table.shared.key.clients; passes = g.table.shared.key.passes; before = numbers_of g.table.shared.key.before.value.items } };

    ghost invariant = { λ g. (g.clients ≡ g.table.shared.key.clients) × (g.clients ≤ 512) × (g.table.shared.table_id.words ≡ g.clients + 1) };
}

// The words of a gate: 0, and for each client 1 where it was there before.
fn first_words(alloc: Global, clients: usize, before: &[ClientId]) -> Result<Vec<u64>, NoMemory>
    requires clients { clients ≤ 512 }
    requires before { All (λ c. c.0 < clients) before.now }
    ensures long { IfOk result (λ v. length v.items ≡ clients + 1) }
    ensures control { IfOk result (λ v. slice_index v.items 0 ≡ 0) }
    ensures each { IfOk result (λ v. (i : ℕ) → i < clients → slice_index v.items (i + 1) ≡ was (numbers_of before.now) i) }
{
    let mut words = vec![in alloc; 0u64; clients + 1]?;
    for client in before {
        words[client.0 as usize + 1] = 1;
    }
    Ok(words)
}

impl<T: Drop> Gate<T> {
    /// Makes a gate and all passes that it ever has: pass i has the number i. The clients of `before` count as claimed.
    pub fn make(
        alloc: Global,
        clients: u32,
        before: &[ClientId],
        passes: u32,
    ) -> Result<(Gate<T>, Vec<GatePass<T>>), NoMemory>
        requires clients { clients ≤ 512 }
        requires before { All (λ c. c.0 < clients) before.now }
        requires passes { (1 ≤ passes) × (passes ≤ 64) }
        ensures gate { IfOk result (λ r. (r.0.clients ≡ clients) × (r.0.passes ≡ passes) × (r.0.before ≡ numbers_of before.now)) }
        ensures passes { IfOk result (λ r. length r.1.items ≡ passes) }
        ensures fresh { IfOk result (λ r. (i : ℕ) → IfSome (slice_get r.1.items i) (IsFresh r.0 i)) }
        ensures new { IfOk result (λ r. All (IsNew r.0) r.1.items) }
    {
        let there = Vec::from_slice(alloc, before)?;
        let terms = Terms {
            clients,
            passes,
            before: Snapshot::of(&there),
        };
        let words = first_words(alloc, clients as usize, before)?;
        let mut all = Vec::with_capacity(alloc, passes as usize)?;
        let (table, mut first) = Table::vacant(alloc, words.as_slice(), clients as usize, &terms)?;
        for number in 0..passes - 1 {
            let seat = table.shared.split_seat::<One>(&mut first);
            all.push_reserved(GatePass { seat, number });
        }
        all.push_reserved(GatePass {
            seat: first,
            number: passes - 1,
        });
        Ok((Gate { table, clients }, all))
    }

    /// Submits a value for the client. It is Included exactly where this call claimed the client and its draw found the gate
    /// open, Late where it claimed the client and its draw found the gate closed, and a Repeat where the client was there before
    /// or had been claimed, by whichever pass. Late and Repeat give the value back. The call takes no memory.
    pub fn submit(&self, pass: &mut GatePass<T>, client: ClientId, value: T) -> Told<T>
        requires gate { (pass.old.gate ≡ self.now) × (client.0 < self.now.clients) }
        requires ready { IsReady pass.old }
        ensures pass { IsSamePass pass.old pass.new × IsReady pass.new × (pass.new.closing ≡ pass.old.closing) × (pass.new.refused ≡ pass.old.refused) }
        ensures included { (place : ℕ) → result ≡ Told.Included place → (place < closed) × (pass.old.closing ≡ None)
            × (pass.new ≡ record pass.old { draws = pass.old.draws ++ included place client.0 ∷ []; values = pass.old.values ++ (client.0, value) ∷ [] }) }
        ensures late { (seen : ℕ) (back : T) → result ≡ Told.Late seen back → (back ≡ value) × (closed ≤ seen)
            × (pass.new ≡ record pass.old { draws = pass.old.draws ++ came_late client.0 seen ∷ [] }) }
        ensures repeat { (back : T) → result ≡ Told.Repeat back → (back ≡ value) × (pass.new ≡ record pass.old { repeats = pass.old.repeats ++ (least pass.old.numbers, client.0) ∷ [] }) }
    {
        if !claim(self, pass, client) {
            return Told::Repeat { back: value };
        }
        match draw(self, pass, client) {
            Drawn::Included { place } => {
                deposit(self, pass, client, value);
                mark(self, pass, client);
                Told::Included { place }
            }
            Drawn::Late { seen } => Told::Late { seen, back: value },
        }
    }

    /// Closes the gate: each later draw comes late. AlreadyClosed comes exactly where the gate was found closed, which is where a call of
    /// any pass closed it before. The pass keeps the word that was found, and a pass that stands for all finds there that one of its
    /// passes made the closing.
    pub fn close(&self, pass: &mut GatePass<T>) -> Result<Closing<T>, AlreadyClosed>
        requires gate { pass.old.gate ≡ self.now }
        requires ready { IsReady pass.old }
        ensures pass { IsSamePass pass.old pass.new × IsReady pass.new }
        ensures closed { IfOk result (λ c. (c.gate ≡ self.now) × (pass.old.closing ≡ None) × (pass.new ≡ record pass.old { closing = Some c.count })) }
        ensures already { IfErr result (λ e. (closed ≤ e.seen) × (pass.new ≡ record pass.old { refused = pass.old.refused ++ e.seen ∷ [] })) }
        ensures kept { IfSome pass.old.closing (λ count. pass.new.closing ≡ Some count) }
    {
        let seen = self
            .table
            .shared
            .fetch_or::<Close>(&mut pass.seat, 0, CLOSED);
        if seen >= CLOSED {
            Err(AlreadyClosed { seen })
        } else {
            let right = self.table.shared.split_seat::<Right>(&mut pass.seat);
            Ok(Closing {
                count: seen as u32,
                right,
            })
        }
    }

    /// The pass then stands for the passes of both.
    pub fn join(&self, pass: &mut GatePass<T>, other: GatePass<T>)
        requires gate { (pass.old.gate ≡ self.now) × (other.gate ≡ self.now) }
        requires ready { IsReady pass.old × IsReady other }
        ensures pass { (pass.new.gate ≡ pass.old.gate) × (pass.new.seat ≡ pass.old.seat) × IsReady pass.new }
        ensures numbers { pass.new.numbers ≡ pass.old.numbers ++ other.numbers }
        ensures both { (pass.new.draws ≡ merge_draws pass.old.draws other.draws) × (pass.new.values ≡ pass.old.values ++ other.values) × (pass.new.repeats ≡ pass.old.repeats ++ other.repeats) × (pass.new.closing ≡ first_some pass.old.closing other.closing) }
        ensures collected { (pass.new.looked ≡ pass.old.looked ++ other.looked) × (pass.new.taken ≡ pass.old.taken ++ other.taken) }
        ensures refused { pass.new.refused ≡ pass.old.refused ++ other.refused }

        // A gate is closed once.
        ensures one { (pass.old.closing ≡ None) ⊎ (other.closing ≡ None) }

        // The draws of each keep their order.
        ensures order { IsMerge pass.new.draws pass.old.draws other.draws }

        // A pass that stands for all knows the history of the gate.
        ensures history { length pass.new.numbers ≡ self.now.passes → IsHistory pass.new }
    {
        let GatePass { seat, number } = other;
        self.table.shared.join_seat::<Both>(&mut pass.seat, seat);
        self.table.shared.load::<Settle>(&mut pass.seat, 0);
        pass.number = pass.number.min(number);
    }
    /// Changes nothing: a pass that stands for all, of a gate that was made with one pass too, then knows the history of the
    /// gate.
    pub fn settle(&self, pass: &mut GatePass<T>)
        requires gate { pass.old.gate ≡ self.now }
        requires ready { IsReady pass.old }
        ensures same { pass.new ≡ pass.old }
        ensures history { length pass.old.numbers ≡ self.now.passes → IsHistory pass.old }
    {
        self.table.shared.load::<Settle>(&mut pass.seat, 0);
    }
}
