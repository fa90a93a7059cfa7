// Laws of what clients make and sign, for those who build on them.
ghost use Rattle.std.specs.Prelude.{◌≡◌, ◌⊎◌, ℕ, List, length, true, false, All, Contains};
ghost use Rattle.dn_wire.specs.declared.ids.ClientId.{ClientId};
ghost use Rattle.dn_wire.specs.declared.ids.ServerId.{ServerId};
ghost use Rattle.dn_wire.specs.declared.ids.Round.{Round};
ghost use Rattle.dn_wire.specs.declared.ids.SignerId.TheVariants.{Client as by_client, Slot as by_slot};
ghost use Rattle.dn_record_types.specs.declared.body.Body.{Body};
ghost use Rattle.dn_record_types.specs.declared.statement.Statement.{Statement};
ghost use Rattle.dn_record_types.specs.declared.statement.Statement.TheVariants.{Submission, Rebuttal, Concede};
ghost use Rattle.dn_layout.specs.Layout.{bits_of};
ghost use Rattle.dn_roster.specs.Roster.{RosterView};
ghost use Rattle.dn_seal.specs.Said.{IsSaid, IsUnder, Unseals};
ghost use Rattle.dn_seal.specs.declared.challenge.Challenge.{Challenge};
ghost use Rattle.dn_cert.specs.Chain.{bodies, IsLayoutAfter};
ghost use Rattle.dn_cert.specs.Evidence.{IsValid};
ghost use Rattle.dn_client.specs.declared.made.Made.{Made};
ghost use Rattle.dn_client.specs.declared.accused.Accused.{Accused};
ghost use Rattle.dn_client.specs.Client.{ClientView, Identity, IsIn, IsMadeOn, IsClient, is_submission, is_rebuttal, submission_of, accusation_of};
ghost use Rattle.dn_client.specs.Answering.{IsRebutted, IsGoodRebuttal};

/// What a client makes for a round on a layout has as many bits as the round.
pub fn ciphertexts_fill_their_rounds()
    ensures { (who : Identity) (lengths : List ℕ) (waiting : List (List ℕ)) (place : ℕ) (m : Made) → IsMadeOn who lengths waiting place m
        → (length m.plain ≡ bits_of lengths) × (length m.cipher ≡ bits_of lengths) }
{}

/// Under a roster that has a client's public parts, each envelope that the client made for a round unseals to the client's submission, and
/// that of each of its accusations to the accusation.
pub fn envelopes_unseal()
    ensures made { (roster : RosterView) (v : ClientView) (m : Made) → IsIn roster v.who → IsClient v → Contains v.made m
        → Unseals roster m.envelope (by_client v.who.me) (submission_of v.who m) }
    ensures accused { (roster : RosterView) (v : ClientView) (a : Accused) → IsIn roster v.who → IsClient v → Contains v.accused a
        → Unseals roster a.envelope (by_slot v.who.slot) (accusation_of v.who a) }
{}

/// What the keys of a client signed that isn't bent. Each submission is that of what the client made for the round, one for a round; each
/// rebuttal answers a challenge that the client answered; its key signed nothing else, and so never a concession. Its slot's key signed the
/// client's accusations and nothing else.
pub fn clients_sign_their_own()
    ensures submissions { (v : ClientView) (r prev : Round) (i : ClientId) (digest : List ℕ) → IsClient v → v.bent ≡ false
        → Contains v.signed (Submission r prev i digest) → (m : Made) × Contains v.made m × (Submission r prev i digest ≡ submission_of v.who m) }
    ensures one_a_round { (v : ClientView) (r prev other_prev : Round) (i other : ClientId) (digest other_digest : List ℕ) → IsClient v → v.bent ≡ false
        → Contains v.signed (Submission r prev i digest) → Contains v.signed (Submission r other_prev other other_digest)
        → Submission r prev i digest ≡ Submission r other_prev other other_digest }
    ensures rebuttals { (v : ClientView) (r : Round) (k : ℕ) (j : ServerId) (seed envelope : List ℕ) → IsClient v → v.bent ≡ false
        → Contains v.signed (Rebuttal r k j seed envelope) → Contains v.answered (record { r = r; k = k }) }
    ensures nothing_else { (v : ClientView) (s : Statement) → IsClient v → v.bent ≡ false → Contains v.signed s
        → (is_submission s ≡ true) ⊎ (is_rebuttal s ≡ true) }
    ensures concedes { (v : ClientView) (r : Round) (k : ℕ) → IsClient v → v.bent ≡ false → ¬ Contains v.signed (Concede r k) }
    ensures accusations { (v : ClientView) (s : Statement) → IsClient v → v.bent ≡ false → Contains v.signed_as_slot s
        → (a : Accused) × Contains v.accused a × (s ≡ accusation_of v.who a) }
{}

/// Each accusation that a client made holds against the body of its round that the client holds, on the layout after that body's prev.
pub fn accusations_hold()
    ensures { (v : ClientView) (a : Accused) → IsClient v → Contains v.accused a
        → (body : Body) × (lengths : List ℕ) × Contains (bodies v.chain) body × IsLayoutAfter v.chain body.prev.0 lengths
        × IsValid lengths body (by_slot v.who.slot) (accusation_of v.who a) (record { r = a.r; slot = v.who.slot; k = a.k }) }
{}

/// A rebuttal that a client gives is good under each roster that has the client's public parts, where all that the challenge shows was
/// unsealed under that roster.
pub fn rebuttals_are_good()
    ensures { (roster : RosterView) (old new : ClientView) (c : Challenge) (envelope : List ℕ) → IsClient old → IsIn roster old.who
        → All IsSaid c.shown.items → All (IsUnder roster) c.shown.items → IsRebutted old c envelope new
        → IsGoodRebuttal roster old.who.me envelope }
{}
