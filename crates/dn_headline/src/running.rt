// How a run goes on, and what of it keeps its invariant.
ghost use Rattle.std.specs.Prelude.{◌≡◌, ◌⊎◌, ℕ, List, ◌++◌, ◌∷◌, [], Contains};
ghost use Rattle.dn_wire.specs.declared.ids.ServerId.{ServerId};
ghost use Rattle.dn_wire.specs.declared.ids.Member.TheVariants.{Server};
ghost use Rattle.dn_report.specs.declared.event.Event.TheVariants.{Tick};
ghost use Rattle.dn_report.specs.declared.outcome.Outcome.{Outcome};
ghost use Rattle.dn_headline.specs.Group.{GroupView};
ghost use Rattle.dn_headline.specs.Log.{IsOrderly, IsSoundLog, Log, Message, Put, Step, message_of, with_step};
ghost use Rattle.dn_headline.specs.Run.{RunView, PlainMade, SumMade};
ghost use Rattle.dn_headline.specs.Invariant.{Facts, Invariant};
ghost use Rattle.dn_headline.specs.Step.{Begins, Follows, Grows, first_run};

/// The invariant holds of a run in which nothing has happened.
pub fn the_invariant_begins()
    ensures { (group : GroupView) (f : Facts) → Begins group f → Invariant (first_run group) f }
{}

/// What a call adds by the rules keeps the invariant.
pub fn calls_keep_the_invariant()
    ensures { (w : RunView) (f : Facts) (v : RunView) (g : Facts) → Invariant w f → Follows w f v g → Invariant v g }
{}

/// A run with one step more has all that it had, and nothing happened beside the step's outcomes.
pub fn histories_grow()
    ensures { (w : RunView) (s : Step) (plains : List PlainMade) (sums : List SumMade)
        → ((m : PlainMade) → Contains w.plains m → Contains plains m) → ((m : SumMade) → Contains w.sums m → Contains sums m)
        → Grows w (record { group = w.group; history = w.history ++ s ∷ []; plains = plains; sums = sums }) s.outcomes }
{}

/// A tick is told server by server: a run whose last step is a tick, with the outcomes of one server more, has all that it had.
pub fn ticks_grow()
    ensures { (group : GroupView) (history : List Step) (os more : List Outcome) (plains more_plains : List PlainMade) (sums more_sums : List SumMade)
        → ((m : PlainMade) → Contains plains m → Contains more_plains m) → ((m : SumMade) → Contains sums m → Contains more_sums m)
        → Grows (record { group = group; history = history ++ record { event = Tick; outcomes = os } ∷ []; plains = plains; sums = sums })
        (record { group = group; history = history ++ record { event = Tick; outcomes = os ++ more } ∷ []; plains = more_plains; sums = more_sums }) more }
{}

/// In a step whose numbers are right, what messages carry was put; and a server's message in flight stays there, or is delivered or lost.
pub fn messages_have_their_fate()
    ensures sound { (log : Log) (s : Step) → IsOrderly log s → IsSoundLog log → IsSoundLog (with_step log s) }
    ensures delivered { (log : Log) (s : Step) → IsOrderly log s → IsSoundLog log → (m : Message) → Contains (with_step log s).delivered m
        → Contains log.delivered m ⊎ ((p : Put) × Contains log.puts p × (p.bytes ≡ m.bytes)) }
    ensures fate { (log : Log) (s : Step) (id : ℕ) (x : ServerId) → IsSoundLog log → Contains log.flight id → (message_of log id).from ≡ Server x
        → Contains (with_step log s).delivered (message_of log id) ⊎ Contains (with_step log s).lost (message_of log id)
        ⊎ (Contains (with_step log s).flight id × (message_of (with_step log s) id ≡ message_of log id)) }
{}
