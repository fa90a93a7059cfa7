ghost use Rattle.std.specs.Prelude.{◌≡◌, ℕ, ◌+◌, ◌<◌, ◌≤◌, ◌++◌, ◌∷◌, [], List, All, length, Some, None, IfOk, IfErr, IfSome, IfNone, OnErr, Option, Err, slice_get};
ghost use Rattle.dn_turns.specs.Logs.{Follows, GoesOn, GrowsBelow, under};
ghost use Rattle.dn_counts.specs.Numbers.{first_some};
ghost use Rattle.dn_turns.specs.Rule.{limit, longer, in_turn, passed_on};
ghost use Rattle.dn_counts.specs.Numbers.{least};
ghost use Rattle.dn_turns.specs.Turns.{IsFresh, IsSamePass, IsTurnOf};

use super::log::Log;
use super::rule::{Both, Look, One, Order, PassOn, Settle, Terms, Ticket};
use super::view::View;
use atomic_table::{Refused, Seat, Shared, Table};
use dn_memory::NoMemory;
use std::alloc::Global;
use std::marker::Model;
use std::snapshot::Snapshot;
use std::sync::Wait;
use std::thread;

type SeatOf<L> = Seat<Option<L>, View<<L as Log>::Entry, <L as Log>::Base>>;

type SharedOf<L> = Shared<Option<L>, View<<L as Log>::Entry, <L as Log>::Base>, Terms<L>, Order>;

/// The word with the number of tickets drawn.
const TICKETS: usize = 0;

/// The word with the ticket whose turn it is.
const SERVING: usize = 1;

/// From this number of tickets on no turn is given.
const LIMIT: u64 = 1 << 62;

/// Why no turn was taken.
#[derive(Clone, Copy, Debug, PartialEq, Eq)]
pub enum TakeFault {
    /// The number of tickets was found at 2^62 or above.
    Full { tickets: u64 },
    /// There was no memory for one more entry. The turn was passed on.
    NoMemory,
}

/// A lock round a log. Contracts see which lock it is, and how many passes it was made with.
#[derive(Drop)]
pub struct Turns<L: Log + Drop> {
    table: Table<Option<L>, View<L::Entry, L::Base>, Terms<L>, Order, Global>,
}

impl<L: Log + Drop> Model for Turns<L> {
    ghost use Rattle.std.specs.Prelude.{◌≡◌, ◌≤◌};
    ghost use Rattle.dn_turns.specs.Turns.{LockId};

    ghost Value = { LockId };

    ghost view = { λ t. record { table = t.table.shared.table_id; passes = t.table.shared.key.passes } };

    ghost invariant = { λ t. (t.table.shared.table_id.words ≡ 2) × (t.table.shared.table_id.slots ≡ 1) × (t.table.shared.key.passes ≤ 64) };
}

/// What one thread takes turns with. Contracts see its lock, the numbers that it stands for, how many tickets it drew, the
/// log that it has seen, and its turn, if it has one, as the log of that moment.
#[derive(Drop)]
pub struct TurnPass<L: Log> {
    seat: SeatOf<L>,
    number: u32,
    full: Option<u64>,
}

impl<L: Log> Model for TurnPass<L> {
    ghost use Rattle.dn_turns.specs.Turns.{PassView, pass_view, IsPass};

    ghost Value = { PassView L.Entry L.Base };

    ghost view = { λ p. pass_view p.seat.table_id p.seat.id p.seat.me.0 };

    ghost invariant = { λ p. IsPass L.list L.base p.seat.me p.number p.full };
}

/// The log, lent to the pass whose turn it is. It can't be dropped: `give` or `leave` ends it.
pub struct Turn<L: Log> {
    log: L,
    of: Snapshot<SeatOf<L>>,
}

impl<L: Log> Model for Turn<L> {
    ghost use Rattle.std.specs.Prelude.{◌≤◌};
    ghost use Rattle.dn_turns.specs.Turns.{TurnView, turn_view};

    ghost Value = { TurnView L };

    ghost view = { λ t. turn_view t.of.value.table_id t.of.value.id t.of.value.me.0 t.log };

    ghost invariant = { λ t. 1 ≤ L.spare t.log };
}

impl<L: Log> Turn<L> {
    /// The log that is lent.
    pub fn log(&self) -> &L
        ensures { result.now ≡ self.now.log }
    {
        &self.log
    }
}

impl<L: Log> TurnPass<L> {
    /// The least of its numbers, under which it gives its entries.
    pub fn number(&self) -> u32
        ensures { result ≡ least self.now.numbers }
    {
        self.number
    }
}

impl<L: Log + Drop> Turns<L> {
    /// A lock round this log, with all passes that it ever has. Pass i of the list, from 0, has the number i.
    pub fn make(
        alloc: Global,
        log: L,
        passes: u32,
    ) -> Result<(Turns<L>, Vec<TurnPass<L>>), NoMemory>
        requires passes { (1 ≤ passes) × (passes ≤ 64) }
        requires numbers { All (λ p. passes ≤ p.0) (L.list log) }
        ensures passes { IfOk result (λ r. (r.0.passes ≡ passes) × (length r.1.items ≡ passes)) }
        ensures ready { IfOk result (λ r. All (λ p. (p.lock ≡ r.0) × (p.turn ≡ None)) r.1.items) }
        ensures fresh { IfOk result (λ r. (i : ℕ) → IfSome (slice_get r.1.items i) (IsFresh r.0 (L.base log) (L.list log) i)) }
    {
        let terms = Terms {
            passes,
            log: Snapshot::of(&log),
        };
        let mut all = Vec::with_capacity(alloc, passes as usize)?;
        let mut slots = Vec::with_capacity(alloc, 1)?;
        slots.push_reserved(Some(log));
        let (table, mut first) = match Table::new(alloc, &[0, 0], slots, &terms) {
            Ok(made) => made,
            Err(Refused { slots: _ }) => return Err(NoMemory),
        };
        for number in 0..passes - 1 {
            let seat = table.shared.split_seat::<One>(&mut first);
            all.push_reserved(TurnPass {
                seat,
                number,
                full: None,
            });
        }
        all.push_reserved(TurnPass {
            seat: first,
            number: passes - 1,
            full: None,
        });
        Ok((Turns { table }, all))
    }

    /// Draws one ticket, waits for its turn and makes room for one entry. `Full` comes exactly where the number of tickets was
    /// found at 2^62 or above; such a pass draws no further ticket and gives the same answer from then on.
    pub fn take<R: Wait>(&self, rt: &R, pass: &mut TurnPass<L>) -> Result<Turn<L>, TakeFault>
        requires { (pass.old.lock ≡ self.now) × (pass.old.turn ≡ None) }
        ensures pass { IsSamePass pass.old pass.new }
        ensures taken { IfOk result (λ t. IsTurnOf L.list L.base t pass.new × (pass.new.seen ≡ pass.old.seen) × (pass.new.full ≡ None)) }

        // The log begins with what was seen, and goes on under other numbers, all of passes.
        ensures follows { IfOk result (λ t. Follows pass.old.numbers pass.old.seen (L.list t.log)) }
        ensures grows { IfOk result (λ t. GrowsBelow self.now.passes pass.old.seen (L.list t.log)) }
        ensures own { IfOk result (λ t. under pass.old.numbers (L.list t.log) ≡ under pass.old.numbers pass.old.seen) }
        ensures refused { OnErr result ((pass.new.turn ≡ None) × Follows pass.old.numbers pass.old.seen pass.new.seen × GrowsBelow self.now.passes pass.old.seen pass.new.seen) }
        ensures full { (n : ℕ) → result ≡ Err (TakeFault.Full n) → (limit ≤ n) × (pass.new.full ≡ Some n) × (pass.new.seen ≡ pass.old.seen) }
        ensures memory { result ≡ Err TakeFault.NoMemory → pass.new.full ≡ None }
        ensures drawn { IfNone pass.old.full (pass.new.drawn ≡ pass.old.drawn + 1) }
        ensures again { IfSome pass.old.full (λ n. (result ≡ Err (TakeFault.Full n)) × (pass.new ≡ pass.old)) }

        // A pass that stands for all finds as many tickets as it drew.
        ensures all { length pass.old.numbers ≡ self.now.passes → IfNone pass.old.full (IfSome pass.new.full (λ n. n ≡ pass.old.drawn)) }
    {
        if let Some(tickets) = pass.full {
            return Err(TakeFault::Full { tickets });
        }
        let shared = &self.table.shared;
        let ticket = shared.fetch_add::<Ticket>(&mut pass.seat, TICKETS, 1);
        if ticket >= LIMIT {
            pass.full = Some(ticket);
            return Err(TakeFault::Full { tickets: ticket });
        }
        let mut log = wait(rt, shared, &mut pass.seat, ticket);
        if log.room().is_err() {
            pass_on(shared, &mut pass.seat, log);
            return Err(TakeFault::NoMemory);
        }
        Ok(Turn {
            log,
            of: Snapshot::of(&pass.seat),
        })
    }

    /// Adds the entry under the pass's number, and passes the turn on.
    pub fn give(&self, pass: &mut TurnPass<L>, turn: Turn<L>, entry: L::Entry)
        requires turn { (pass.old.lock ≡ self.now) × IsTurnOf L.list L.base turn pass.old }
        requires fits { L.fits (L.base turn.log) (L.list turn.log) (least pass.old.numbers, entry) }
        ensures pass { IsSamePass pass.old pass.new × (pass.new.drawn ≡ pass.old.drawn) × (pass.new.full ≡ pass.old.full) }
        ensures given { (pass.new.turn ≡ None) × (pass.new.seen ≡ L.list turn.log ++ (least pass.old.numbers, entry) ∷ []) }
        ensures own { under pass.new.numbers pass.new.seen ≡ under pass.old.numbers (L.list turn.log) ++ (least pass.old.numbers, entry) ∷ [] }
    {
        let Turn { mut log, of: _ } = turn;
        log.add(pass.number, entry);
        pass_on(&self.table.shared, &mut pass.seat, log);
    }

    /// Passes the turn on, and adds nothing.
    pub fn leave(&self, pass: &mut TurnPass<L>, turn: Turn<L>)
        requires { (pass.old.lock ≡ self.now) × IsTurnOf L.list L.base turn pass.old }
        ensures pass { IsSamePass pass.old pass.new × (pass.new.drawn ≡ pass.old.drawn) × (pass.new.full ≡ pass.old.full) }
        ensures left { (pass.new.turn ≡ None) × (pass.new.seen ≡ L.list turn.log) }
    {
        let Turn { log, of: _ } = turn;
        pass_on(&self.table.shared, &mut pass.seat, log);
    }

    /// The pass then stands for the numbers of both, and has seen what both have.
    pub fn join(&self, pass: &mut TurnPass<L>, other: TurnPass<L>)
        requires lock { (pass.old.lock ≡ self.now) × (other.lock ≡ self.now) }
        requires idle { (pass.old.turn ≡ None) × (other.turn ≡ None) }
        ensures pass { (pass.new.lock ≡ pass.old.lock) × (pass.new.seat ≡ pass.old.seat) × (pass.new.base ≡ pass.old.base) × (pass.new.turn ≡ None) }
        ensures numbers { pass.new.numbers ≡ pass.old.numbers ++ other.numbers }
        ensures seen { pass.new.seen ≡ longer pass.old.seen other.seen }
        ensures both { Follows pass.old.numbers pass.old.seen pass.new.seen × Follows other.numbers other.seen pass.new.seen }
        ensures grows { GrowsBelow self.now.passes pass.old.seen pass.new.seen × GrowsBelow self.now.passes other.seen pass.new.seen }
        ensures drawn { (pass.new.drawn ≡ pass.old.drawn + other.drawn) × (pass.new.full ≡ first_some pass.old.full other.full) }

        // A pass that stands for all knows how many tickets there were.
        ensures all { length pass.new.numbers ≡ self.now.passes → IfSome pass.new.full (λ n. (limit ≤ n) × (n < pass.new.drawn)) }
    {
        let TurnPass { seat, number, full } = other;
        self.table.shared.join_seat::<Both>(&mut pass.seat, seat);
        self.table.shared.load::<Settle>(&mut pass.seat, TICKETS);
        pass.number = pass.number.min(number);
        pass.full = earlier(pass.full, full);
    }
}

fn earlier(first: Option<u64>, second: Option<u64>) -> Option<u64>
    ensures { result ≡ first_some first second }
{
    match first {
        Some(tickets) => Some(tickets),
        None => second,
    }
}

// Waits until the ticket is served, and takes the log out.
fn wait<L: Log, R: Wait>(rt: &R, shared: &SharedOf<L>, seat: &mut SeatOf<L>, ticket: u64) -> L
    requires table { (seat.old.table_id ≡ shared.now.table_id) × (shared.now.table_id.words ≡ 2) × (shared.now.table_id.slots ≡ 1) }
    requires seat { (seat.old.me.0.ticket ≡ Some ticket) × (seat.old.me.0.turn ≡ None) × (seat.old.me.1 ≡ []) × (0 < length seat.old.me.0.numbers) }
    ensures seat { (seat.new.table_id ≡ seat.old.table_id) × (seat.new.id ≡ seat.old.id) }
    ensures turn { seat.new.me ≡ (in_turn seat.old.me.0 (L.list result), (0, None) ∷ []) }
    ensures grows { GrowsBelow seat.old.me.0.passes seat.old.me.0.seen (L.list result) }
    ensures log { Follows seat.old.me.0.numbers seat.old.me.0.seen (L.list result) × (seat.old.me.0.base ≡ Some (L.base result)) }
{
    for _ in rt.forever() {
        let serving = shared.load::<Look>(seat, SERVING);
        if serving == ticket {
            return shared.exchange(seat, 0, None).unwrap();
        }
        thread::yield_now();
    }
    unreachable!()
}

// Puts the log back, with one entry more or none, and lets the next ticket be served.
fn pass_on<L: Log + Drop>(shared: &SharedOf<L>, seat: &mut SeatOf<L>, log: L)
    requires table { (seat.old.table_id ≡ shared.now.table_id) × (shared.now.table_id.words ≡ 2) × (shared.now.table_id.slots ≡ 1) }
    requires held { (0 < length seat.old.me.0.numbers) × (seat.old.me.0.met ≡ []) × ((held : Option L) × (seat.old.me.1 ≡ (0, held) ∷ [])) }
    requires log { GoesOn seat.old.me.0.numbers seat.old.me.0.turn (L.list log) × (seat.old.me.0.base ≡ Some (L.base log)) }
    ensures seat { (seat.new.table_id ≡ seat.old.table_id) × (seat.new.id ≡ seat.old.id) }
    ensures passed { seat.new.me ≡ (passed_on seat.old.me.0 (L.list log), []) }
{
    drop(shared.exchange(seat, 0, Some(log)));
    shared.fetch_add::<PassOn>(seat, SERVING, 1);
}
