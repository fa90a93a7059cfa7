// What an auditor knows stays true of what it is told.
ghost use Rattle.std.specs.Prelude.{◌≡◌, ◌⊎◌, ◌++◌, ◌∷◌, [], true, Bool, List, ℕ, Contains};
ghost use Rattle.dn_roster.specs.Roster.{IsRoster};
ghost use Rattle.dn_audit.specs.Auditor.{AuditorView, RunStrings, TellsOf, AddsStrings, Looks, hashed_sum};
ghost use Rattle.dn_audit.specs.Group.{GroupView as Marked};
ghost use Rattle.dn_headline.specs.Group.{GroupView};
ghost use Rattle.dn_headline.specs.Log.{Put};
ghost use Rattle.dn_headline.specs.Run.{RunView, SumMade};
ghost use Rattle.dn_auditing.specs.Shows.{AddsShown, AreStringsOf};
ghost use Rattle.dn_auditing.specs.Known.{IsOwnFront, Knows, KnowsRun, MarksKeys, NotesFront};
ghost use Rattle.dn_auditing.specs.Words.{TellsRight};

/// Where nothing was put, an auditor that knows the seeds knows all.
pub fn nothing_is_known()
    ensures { (g : GroupView) (made : List SumMade) (a : AuditorView) (x : RunStrings) → a.signed ≡ [] → a.are_theirs ≡ true → AreStringsOf g [] made x → TellsOf a x
        → Knows g [] made a }
{}

/// Bytes that are put are known with all that is in them, once the auditor noted what stands in front, looked at their signatures and added what
/// they show.
pub fn puts_are_known()
    ensures { (g : GroupView) → IsRoster g.roster → (marked : Marked) → MarksKeys g marked → (puts : List Put) (made : List SumMade) (p : Put)
        (old mid looked new : AuditorView) (more : RunStrings → RunStrings) → IsOwnFront g p → Knows g puts made old → NotesFront g.roster p.own p.bytes old mid
        → Looks g.roster marked mid looked p.bytes → AddsStrings looked new more → AddsShown g.roster p.bytes more → Knows g (puts ++ p ∷ []) made new }
{}

/// Of bytes that were put before only what stands in front is noted.
pub fn repeats_are_known()
    ensures { (g : GroupView) → IsRoster g.roster → (puts : List Put) (made : List SumMade) (own : Bool) (bytes : List ℕ) (q : Put) (old new : AuditorView)
        → Contains puts q → q.bytes ≡ bytes → NotesFront g.roster own bytes old new → Knows g puts made old → Knows g puts made new }
{}

/// A ciphertext that a server made is known once it is told.
pub fn ciphertexts_are_told()
    ensures { (g : GroupView) (puts : List Put) (made : List SumMade) (m : SumMade) (old new : AuditorView)
        → AddsStrings old new (λ x. record x { sums = x.sums ++ hashed_sum m.r.0 m.server.0 m.sum ∷ [] }) → Knows g puts made old
        → Knows g puts (made ++ m ∷ []) new }
{}

/// The words of an auditor that knows a run are yes exactly where the run is clean.
pub fn words_are_right()
    ensures { (w : RunView) (a : AuditorView) → KnowsRun w a → TellsRight w a }
{}
