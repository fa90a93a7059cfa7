// What cores promise is what runs ask of them.
ghost use Rattle.std.specs.Prelude.{◌≡◌, ◌<◌, List, [], ◌∷◌, ◌++◌, Contains, map, slice_get, Some, false};
ghost use Rattle.dn_wire.specs.declared.ids.ClientId.{ClientId};
ghost use Rattle.dn_wire.specs.declared.ids.ServerId.{ServerId};
ghost use Rattle.dn_wire.specs.declared.ids.Round.{Round};
ghost use Rattle.dn_bits.specs.Bits.{below};
ghost use Rattle.dn_record_types.specs.declared.statement.Statement.{Statement};
ghost use Rattle.dn_report.specs.declared.outcome.Outcome.{Outcome};
ghost use Rattle.dn_client.specs.Client.{ClientView, IsIn};
ghost use Rattle.dn_server.specs.declared.act.Act.{Act};
ghost use Rattle.dn_server.specs.Server.{ServerView, servers_in};
ghost use Rattle.dn_rounds.specs.Going.{GoesOn};
ghost use Rattle.dn_links.specs.Going.{GoesBy};
ghost use Rattle.dn_exchange.specs.Disciplined.{Disciplined};
ghost use Rattle.dn_exchange.specs.Settled.{Settled};
ghost use Rattle.dn_headline.specs.Group.{GroupView, IsHonestClient, IsHonestServer, seed_of, servers_of};
ghost use Rattle.dn_headline.specs.Log.{IsSoundLog, Log, Step};
ghost use Rattle.dn_headline.specs.Run.{RunView, PlainMade, SumMade, log};
ghost use Rattle.dn_headline.specs.Plains.{text_in, texts_in};
ghost use Rattle.dn_headline.specs.Invariant.{Facts, FitsServer, HasGoneOn, HeldIsPut, Invariant, IsHeldChain, Runs, seat_of};
ghost use Rattle.dn_headline.specs.Step.{ClientsFollow, Grows, MessagesFollow, RoundsFollow, ServersFollow, VerdictsFollow, first_run};
ghost use Rattle.dn_links.specs.Link.{IsLinked, IsOfRecord, IsUnopened, Moves, RoundsCalled, ServersCalled, facts_of};
ghost use Rattle.dn_links.specs.ClientLink.{ClientsCalled, IsClientLinked};
ghost use Rattle.dn_links.specs.MessageLink.{LogMoves, MessagesCalled, NoneAhead};
ghost use Rattle.dn_links.specs.Judging.{JudgeCalled};
ghost use Rattle.dn_links.specs.Call.{IsCall};

/// What a server's core signed in the round that it opened last, and what it opened, fits the run, where the core is disciplined and linked
/// to the run.
pub fn records_fit_runs()
    ensures { (w : RunView) (f : Facts) (j : ServerId) (c : ServerView) → f.server j ≡ facts_of c → IsLinked w j c → IsHeldChain w c.chain
        → Disciplined c → (s : Statement) → Contains c.signed s → IsOfRecord c s → FitsServer w f j s }
{}

/// A server that goes on signs, posts, keeps and holds what its acts tell, and stays in its round.
pub fn going_on_moves()
    ensures { (c : ServerView) (did : List Act) (d : ServerView) → c.seat.number < servers_in c → GoesOn c did d → GoesBy c did d }
{}

/// A core that runs its round has gone on as far as what it keeps allows.
pub fn settled_cores_have_gone_on()
    ensures { (w : RunView) (f : Facts) (j : ServerId) (c : ServerView) → f.server j ≡ facts_of c → IsLinked w j c → Disciplined c → Settled c
        → (r : Round) → Runs f j r → HasGoneOn w f j r }
{}

/// A call keeps what ties a core to the run.
pub fn cores_stay_linked()
    ensures { (w : RunView) (history : List Step) (plains : List PlainMade) (sums : List SumMade) (lines : List Outcome)
        → Grows w (record { group = w.group; history = history; plains = plains; sums = sums }) lines → (j : ServerId) (c d : ServerView) → IsLinked w j c
        → Moves (record { group = w.group; history = history; plains = plains; sums = sums }) j c d lines
        → IsLinked (record { group = w.group; history = history; plains = plains; sums = sums }) j d }
{}

/// What a call does follows the rules of runs, by what cores promise: at the servers, to their rounds, at the clients, and to messages.
pub fn calls_follow_the_rules()
    ensures servers { (w : RunView) (f g : Facts) (history : List Step) (plains : List PlainMade) (sums : List SumMade) (lines : List Outcome)
        (fresh : ServerId → List Statement)
        → Grows w (record { group = w.group; history = history; plains = plains; sums = sums }) lines → HeldIsPut w f
        → ServersCalled w (record { group = w.group; history = history; plains = plains; sums = sums }) f g lines fresh
        → ServersFollow w (record { group = w.group; history = history; plains = plains; sums = sums }) f g lines fresh }
    ensures rounds { (w : RunView) (f g : Facts) (history : List Step) (plains : List PlainMade) (sums : List SumMade) (lines : List Outcome)
        (fresh : ServerId → List Statement)
        → Grows w (record { group = w.group; history = history; plains = plains; sums = sums }) lines → Invariant w f
        → (called : ServersCalled w (record { group = w.group; history = history; plains = plains; sums = sums }) f g lines fresh)
        → RoundsCalled w (record { group = w.group; history = history; plains = plains; sums = sums }) f g lines fresh called.before called.after
        → RoundsFollow w (record { group = w.group; history = history; plains = plains; sums = sums }) f g lines }
    ensures clients { (w : RunView) (f g : Facts) (history : List Step) (plains : List PlainMade) (sums : List SumMade) (lines : List Outcome)
        → Grows w (record { group = w.group; history = history; plains = plains; sums = sums }) lines → Invariant w f
        → ClientsCalled w (record { group = w.group; history = history; plains = plains; sums = sums }) f g
        → ClientsFollow w (record { group = w.group; history = history; plains = plains; sums = sums }) f g }
    ensures messages { (w : RunView) (f g : Facts) (history : List Step) (plains : List PlainMade) (sums : List SumMade) (lines : List Outcome)
        (fresh : ServerId → List Statement)
        → Grows w (record { group = w.group; history = history; plains = plains; sums = sums }) lines
        → (called : ServersCalled w (record { group = w.group; history = history; plains = plains; sums = sums }) f g lines fresh)
        → MessagesCalled w (record { group = w.group; history = history; plains = plains; sums = sums }) f g lines fresh called.before called.after
        → MessagesFollow w (record { group = w.group; history = history; plains = plains; sums = sums }) f g fresh }
{}

/// What the judge tells follows the rules of runs.
pub fn verdicts_follow_the_rules()
    ensures { (w v : RunView) → JudgeCalled w v → VerdictsFollow w v }
{}

/// A call keeps the invariant of runs, by what cores promise.
pub fn calls_keep_runs()
    ensures { (w : RunView) (f : Facts) (v : RunView) (g : Facts) → Invariant w f → IsCall w f v g → Invariant v g }
{}

/// A call keeps what ties a client to the run.
pub fn clients_stay_linked()
    ensures { (w : RunView) (f g : Facts) (history : List Step) (plains : List PlainMade) (sums : List SumMade) (lines : List Outcome)
        → Grows w (record { group = w.group; history = history; plains = plains; sums = sums }) lines → Invariant w f
        → (called : ClientsCalled w (record { group = w.group; history = history; plains = plains; sums = sums }) f g)
        → (i : ClientId) → IsHonestClient w.group i → IsClientLinked (record { group = w.group; history = history; plains = plains; sums = sums }) i (called.after i) }
{}

/// The text of a step comes behind the texts that a client was given before.
pub fn texts_come_in_order()
    ensures { (i : ClientId) (history : List Step) (s : Step) → texts_in i (history ++ s ∷ []) ≡ texts_in i history ++ text_in i s.event }
{}

/// A call keeps what ties messages to the run: its log is sound, and nothing that was delivered is ahead of a server's round.
pub fn messages_stay_linked()
    ensures sound { (old new : Log) → LogMoves old new → IsSoundLog old → IsSoundLog new }
    ensures none_ahead { (w : RunView) (f g : Facts) (history : List Step) (plains : List PlainMade) (sums : List SumMade) (lines : List Outcome)
        (fresh : ServerId → List Statement)
        → Grows w (record { group = w.group; history = history; plains = plains; sums = sums }) lines
        → (called : ServersCalled w (record { group = w.group; history = history; plains = plains; sums = sums }) f g lines fresh)
        → MessagesCalled w (record { group = w.group; history = history; plains = plains; sums = sums }) f g lines fresh called.before called.after
        → (j : ServerId) → IsHonestServer w.group j
        → NoneAhead (record { group = w.group; history = history; plains = plains; sums = sums }) j (called.after j) }
{}

/// Servers that have opened nothing, clients as they are made, and messages are tied to a run in which nothing has happened.
pub fn the_links_begin()
    ensures server { (group : GroupView) (j : ServerId) (c : ServerView) → c.seat ≡ seat_of group j → IsUnopened c → IsLinked (first_run group) j c }
    ensures client { (group : GroupView) (i : ClientId) (c : ClientView) → c.who.me ≡ i → IsIn group.roster c.who → slice_get group.owners c.who.slot.0 ≡ Some i
        → c.who.seeds ≡ map (λ j. seed_of group i.0 j) (below (servers_of group)) → slice_get group.masks i.0 ≡ Some c.who.mask
        → c.bent ≡ false → c.queue ≡ [] → c.made ≡ [] → IsClientLinked (first_run group) i c }
    ensures log { (group : GroupView) → IsSoundLog (log (first_run group)) }
    ensures none_ahead { (group : GroupView) (j : ServerId) (c : ServerView) → NoneAhead (first_run group) j c }
{}
