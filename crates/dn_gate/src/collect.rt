// Collecting the values.
ghost use Rattle.std.specs.Prelude.{◌≡◌, ◌≢◌, ◌⊎◌, ℕ, ◌+◌, ◌<◌, ◌≤◌, ◌++◌, [], None, IfOk, IfErr, MatchResult, List, length, map, vec_len, vec_capacity};
ghost use Rattle.std.specs.List.{range_with_len};
ghost use Rattle.std.specs.List.Sorted.{IsStrictlyIncreasing};
ghost use Rattle.dn_counts.specs.Counts.{times, total};
ghost use Rattle.dn_gate.specs.Rule.{looked_at, looked_all, many, marked_count, marks_upto, is_mark, is_three, puts};
ghost use Rattle.dn_gate.specs.Pass.{IsReady, IsClosingOf};
ghost use Rattle.dn_gate.specs.History.{IsHistory};
ghost use Rattle.dn_gate.specs.Order.{in_order};
ghost use Rattle.dn_gate.specs.Collected.{named, clients_of, took_all, LookedAt, IsLeftOrTaken};

use super::closing::Closing;
use super::gate::Gate;
use super::not_yet::NotYet;
use super::pass::{GatePass, SeatOf};
use super::rule::{Both, GateRule, Look, Return, Settle, Take, Terms};
use super::view::View;
use atomic_table::Shared;
use dn_wire::ClientId;
use std::alloc::Global;

type SharedOf<T> = Shared<Option<T>, View<T>, Terms, GateRule>;

const MARKED: u64 = 3;

// 1 where the client's word is marked, and else 0.
fn mark_at<T>(shared: &SharedOf<T>, seat: &mut SeatOf<T>, i: usize) -> u32
    requires table { (seat.old.table_id ≡ shared.now.table_id) × (shared.now.table_id.words ≡ shared.now.key.clients + 1) × (i < shared.now.key.clients) × (shared.now.key.clients ≤ 512) }
    requires seat { 0 < length seat.old.me.0.numbers }
    ensures seat { (seat.new.table_id ≡ seat.old.table_id) × (seat.new.id ≡ seat.old.id) }
    ensures looked { (found : ℕ) × (seat.new.me ≡ (looked_at seat.old.me.0 i found, seat.old.me.1)) × (is_three found ≡ result) }
    ensures small { result ≤ 1 }
    ensures whole { length seat.old.me.0.numbers ≡ seat.old.me.0.passes → result ≡ puts i seat.old.me.0 }
{
    if shared.load::<Look>(seat, i + 1) == MARKED {
        1
    } else {
        0
    }
}

// Looks at each client's word, and counts those that are marked.
fn count_marked<T>(shared: &SharedOf<T>, seat: &mut SeatOf<T>, clients: usize) -> u32
    requires table { (seat.old.table_id ≡ shared.now.table_id) × (shared.now.table_id.words ≡ shared.now.key.clients + 1) × (clients ≡ shared.now.key.clients) × (clients ≤ 512) }
    requires seat { (0 < length seat.old.me.0.numbers) × (seat.old.me.1 ≡ []) }
    ensures seat { (seat.new.table_id ≡ seat.old.table_id) × (seat.new.id ≡ seat.old.id) }
    ensures looked { (found : List (ℕ × ℕ)) × (seat.new.me ≡ (looked_all seat.old.me.0 found, [])) × (map (λ w. w.0) found ≡ range_with_len 0 clients) × (marked_count found ≡ result) × (result ≤ many (λ i. total (is_mark i) found) clients) }
    // A pass that stands for all finds what it put.
    ensures whole { length seat.old.me.0.numbers ≡ seat.old.me.0.passes → result ≡ marks_upto seat.old.me.0 clients }
{
    let mut count = 0;
    for i in 0..clients {
        count += mark_at(shared, seat, i);
    }
    count
}

// Takes the value of a client that is marked, and puts it behind the others.
fn take_into<T: Drop>(
    shared: &SharedOf<T>,
    seat: &mut SeatOf<T>,
    i: usize,
    out: &mut Vec<(ClientId, T)>,
)
    requires table { (seat.old.table_id ≡ shared.now.table_id) × (shared.now.table_id.words ≡ shared.now.key.clients + 1) × (i < shared.now.key.clients) × (shared.now.key.clients ≤ 512) }
    requires seat { (0 < length seat.old.me.0.numbers) × (0 < seat.old.me.0.right) × (times i seat.old.me.0.taken ≡ 0) × (seat.old.me.1 ≡ []) }
    requires room { vec_len out.old < vec_capacity out.old }
    ensures seat { (seat.new.table_id ≡ seat.old.table_id) × (seat.new.id ≡ seat.old.id) }
    ensures taken { IsLeftOrTaken seat.old.me.0 i seat.new.me out.old.items out.new.items }
    ensures room { vec_capacity out.new ≡ vec_capacity out.old }
{
    if shared.load::<Take>(seat, i + 1) != MARKED {
        return;
    }
    let Some(value) = shared.exchange(seat, i, None) else {
        unreachable!()
    };
    shared.load::<Return>(seat, i + 1);
    out.push_reserved((ClientId(i as u32), value));
}

// Takes the values of the clients that are marked, in order of clients.
fn take_all<T: Drop>(
    shared: &SharedOf<T>,
    seat: &mut SeatOf<T>,
    clients: usize,
    out: &mut Vec<(ClientId, T)>,
)
    requires table { (seat.old.table_id ≡ shared.now.table_id) × (shared.now.table_id.words ≡ shared.now.key.clients + 1) × (clients ≡ shared.now.key.clients) × (clients ≤ 512) }
    requires seat { (0 < length seat.old.me.0.numbers) × (0 < seat.old.me.0.right) × (seat.old.me.0.taken ≡ []) × (seat.old.me.1 ≡ []) }
    requires room { (out.old.items ≡ []) × (clients ≤ vec_capacity out.old) }
    ensures seat { (seat.new.table_id ≡ seat.old.table_id) × (seat.new.id ≡ seat.old.id) }
    ensures taken { seat.new.me ≡ (took_all seat.old.me.0 (clients_of out.new.items), []) }
    ensures order { IsStrictlyIncreasing (clients_of out.new.items) }
    // It takes the value of each client whose word was found marked before, and no two values of one client.
    ensures full { many (λ i. total (is_mark i) seat.old.me.0.looked) clients ≤ length out.new.items }
    ensures few { length out.new.items ≤ many (λ i. times i (clients_of out.new.items)) clients }
    // A pass that stands for all takes what it put.
    ensures whole { length seat.old.me.0.numbers ≡ seat.old.me.0.passes → out.new.items ≡ map named (in_order clients seat.old.me.0.values) }
{
    for i in 0..clients {
        take_into(shared, seat, i, out);
    }
}

impl<T: Drop> Gate<T> {
    /// The values of the clients that are included, in order of clients. Where some are claimed and drawn and not marked yet,
    /// it is Pending and gives the closing back; a pass that stands for all never finds it so.
    pub fn collect(
        &self,
        alloc: Global,
        pass: &mut GatePass<T>,
        closing: Closing<T>,
    ) -> Result<Vec<(ClientId, T)>, (Closing<T>, NotYet)>
        requires gate { pass.old.gate ≡ self.now }
        requires ready { IsReady pass.old }
        requires closing { IsClosingOf pass.old closing }
        ensures pass { (pass.new.gate ≡ pass.old.gate) × (pass.new.seat ≡ pass.old.seat) × (pass.new.numbers ≡ pass.old.numbers) × IsReady pass.new }
        ensures same { (pass.new.draws ≡ pass.old.draws) × (pass.new.values ≡ pass.old.values) × (pass.new.repeats ≡ pass.old.repeats) × (pass.new.closing ≡ pass.old.closing) × (pass.new.refused ≡ pass.old.refused) }
        ensures back { IfErr result (λ e. (e.0 ≡ closing) × (pass.new.taken ≡ pass.old.taken)) }
        ensures memory { result ≡ Err (closing, NotYet.NoMemory) → pass.new ≡ pass.old }
        ensures pending { (missing : ℕ) → result ≡ Err (closing, NotYet.Pending missing) → LookedAt pass.old pass.new (λ found. (marked_count found + missing ≡ closing.count) × (0 < missing)) }
        ensures enough { IfOk result (λ _. LookedAt pass.old pass.new (λ found. marked_count found ≡ closing.count)) }
        // There are as many values as draws before the close, whichever pass collects.
        ensures all { IfOk result (λ v. length v.items ≡ closing.count) }
        ensures order { IfOk result (λ v. (pass.new.taken ≡ clients_of v.items) × IsStrictlyIncreasing (clients_of v.items)) }

        // A pass that stands for all gets all values that are included, and knows the whole history.
        ensures whole { length pass.old.numbers ≡ self.now.passes → MatchResult result (λ v. v.items ≡ map named (in_order self.now.clients pass.old.values)) (λ e. e.1 ≡ NotYet.NoMemory) }
        ensures history { length pass.old.numbers ≡ self.now.passes → IsHistory pass.old }
    {
        let shared = &self.table.shared;
        shared.load::<Settle>(&mut pass.seat, 0);
        let Ok(mut included) = Vec::with_capacity(alloc, self.clients as usize) else {
            return Err((closing, NotYet::NoMemory));
        };
        let marked = count_marked(shared, &mut pass.seat, self.clients as usize);
        if marked < closing.count {
            let missing = closing.count - marked;
            return Err((closing, NotYet::Pending { missing }));
        }
        let Closing { count: _, right } = closing;
        shared.join_seat::<Both>(&mut pass.seat, right);
        shared.load::<Settle>(&mut pass.seat, 0);
        take_all(shared, &mut pass.seat, self.clients as usize, &mut included);
        shared.load::<Settle>(&mut pass.seat, 0);
        Ok(included)
    }
}
