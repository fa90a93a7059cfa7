ghost use Rattle.std.specs.Prelude.{◌≡◌, ℕ, ◌+◌, ◌-◌, ◌<◌, ◌≤◌, ◌==◌, ◌++◌, ◌∷◌, [], List, None, Some, All, map, length, count_by, vec_len, slice_get, IfOk, IfSome, IsSome, MatchResult};
ghost use denote.Param.Send.{IsSync};
ghost use Rattle.dn_counts.specs.Counts.{times};
ghost use Rattle.dn_told.specs.Window.{is_submit_of, is_close};
ghost use Rattle.dn_gate.specs.Collected.{named};
ghost use Rattle.dn_gate.specs.History.{IsHistory, history};
ghost use Rattle.dn_gate.specs.Order.{in_order};
ghost use Rattle.dn_gate.specs.Pass.{IsFresh, IsReady};
ghost use Rattle.dn_board.specs.declared.letters.Letter.{Letter};
ghost use Rattle.dn_board.specs.Reads.{AreReads};
ghost use Rattle.dn_turns.specs.Logs.{GrowsBelow};
ghost use Rattle.dn_crew.specs.Race.{event_of, in_time, numbers_of, submitted};
ghost use Rattle.dn_crew.specs.Live.{server_of, posts_under, Gives, AreFresh};
ghost use Rattle.dn_crew.specs.Workers.{AllBy};
ghost use Rattle.dn_crew.specs.Given.{reads_of};

use crate::given::Given;
use crate::lived::Lived;
use crate::raced::Raced;
use dn_board::Board;
use dn_exchange::ServerCore;
use dn_gate::{Gate, GatePass};
use dn_memory::NoMemory;
use dn_roster::Roster;
use dn_turns::{TurnPass, Turns};
use dn_wire::ClientId;
use std::alloc::Global;
use std::sync::Wait;
use std::thread::Threads;

/// Who does the threads' work of races and live runs. A crew keeps what it gave, one entry for each race and each live run.
pub trait Crew {
    ghost use Rattle.dn_crew.specs.declared.given.Given.{Given};

    ghost given: { Self → List Given };

    /// A race, as `race_on` has it. The crew gains its order; where memory failed, nothing.
    fn race<R: Threads + Wait + Sync>(
        &mut self,
        rt: &R,
        alloc: Global,
        gate: &Gate<u64>,
        passes: Vec<GatePass<u64>>,
        list: &[(ClientId, u64)],
    ) -> Result<Raced, NoMemory>
        requires shared { IsSync R.row }
        requires workers { (2 ≤ gate.now.passes) × (gate.now.passes ≤ 17) }
        requires passes { vec_len passes ≡ gate.now.passes }
        requires fresh { (w : ℕ) → IfSome (slice_get passes.items w) (IsFresh gate.now w) }
        requires few { length list.now ≤ 512 }
        requires clients { All (λ m. m.0.0 < gate.now.clients) list.now }
        requires differ { (n : ℕ) → times n (numbers_of list.now) ≤ 1 }
        ensures pass { IfOk result (λ r. (r.pass.gate ≡ gate.now) × (length r.pass.numbers ≡ gate.now.passes) × IsReady r.pass) }
        ensures history { IfOk result (λ r. IsHistory r.pass × IsSome r.pass.closing) }
        ensures order { IfOk result (λ r. map (event_of list.now) r.order ≡ history r.pass) }
        ensures once { IfOk result (λ r. (n : ℕ) → times n (submitted r.order) ≡ times n (numbers_of list.now)) }
        ensures placed { IfOk result (λ r. r.placed ≡ map named (in_order gate.now.clients r.pass.values)) }
        // Placed are the submissions that stand before the closing.
        ensures in_time { IfOk result (λ r. (n : ℕ) → times n (numbers_of r.placed) ≡ times n (in_time r.order)) }
        // The history has one Submit of its client for each of the list, one Close, and no more.
        ensures each { IfOk result (λ r. (i : ℕ) → count_by (is_submit_of i) (history r.pass) ≡ count_by (λ m. m.0.0 == i) list.now) }
        ensures one_close { IfOk result (λ r. count_by is_close (history r.pass) ≡ 1) }
        ensures gains { MatchResult result (λ r. given self.new ≡ given self.old ++ Given.Race r.order ∷ []) (λ _. given self.new ≡ given self.old) };

    /// A live run, as `live_on` has it. The crew gains what stands of its posts; where memory failed, nothing.
    fn live<R: Threads + Wait + Sync>(
        &mut self,
        rt: &R,
        alloc: Global,
        lock: &Turns<Board>,
        passes: Vec<TurnPass<Board>>,
        roster: &Roster,
        cores: Vec<ServerCore>,
        t: u32,
    ) -> Result<Lived, NoMemory>
        requires shared { IsSync R.row }
        requires turns { (1 ≤ t) × (t ≤ 64) }
        requires cores { (1 ≤ vec_len cores) × (vec_len cores ≤ 16) }
        requires passes { (lock.now.passes ≡ vec_len cores) × (vec_len passes ≡ vec_len cores) }
        requires fresh { (first : List Letter) × AreFresh lock.now first passes.items }
        requires group { All (λ v. v.seat.roster ≡ roster.now) cores.items }
        ensures pass { IfOk result (λ r. (r.pass.lock ≡ lock.now) × (length r.pass.numbers ≡ lock.now.passes) × (r.pass.turn ≡ None)) }
        ensures first { IfOk result (λ r. (first : List Letter) → AreFresh lock.now first passes.items → (r.pass.base ≡ Some first) × (r.first ≡ length first)) }
        ensures log { IfOk result (λ r. r.pass.seen ≡ r.posts) }

        // The log has so many posts under each pass's number, which are its server's, and no others.
        ensures turns { IfOk result (λ r. (i : ℕ) → IfSome (slice_get cores.items i) (λ v. length (posts_under i r.posts) ≡ t)) }
        ensures author { IfOk result (λ r. (i : ℕ) → IfSome (slice_get cores.items i) (λ v. AllBy (server_of v) (posts_under i r.posts))) }
        ensures others { IfOk result (λ r. GrowsBelow lock.now.passes [] r.posts) }

        // Each post has the letters that its core makes of those to it in the entries from what it had read last to below what it has read.
        ensures letters { IfOk result (λ r. (first : List Letter) → AreFresh lock.now first passes.items
            → (i : ℕ) → IfSome (slice_get cores.items i) (λ v. Gives roster.now (map server_of cores.items) first r.posts v (posts_under i r.posts))) }
        ensures reads { IfOk result (λ r. AreReads r.posts) }
        ensures gains { MatchResult result (λ r. given self.new ≡ given self.old ++ Given.Live r.first (reads_of r.posts) ∷ []) (λ _. given self.new ≡ given self.old) };
}
