// Laws of chains, for those who build on them.
ghost use Rattle.std.specs.Prelude.{◌≡◌, ◌⊎◌, List, ℕ, [], length, Contains, IsTrue};
ghost use Rattle.dn_wire.specs.declared.ids.SignerId.{SignerId};
ghost use Rattle.dn_record_types.specs.declared.body.Body.{Body};
ghost use Rattle.dn_record_types.specs.declared.statement.Statement.{Statement};
ghost use Rattle.dn_cert.specs.declared.rules.Valid.{Valid};
ghost use Rattle.dn_cert.specs.Evidence.{IsValid};
ghost use Rattle.dn_cert.specs.Chain.{ChainView, bodies, Holds, IsChain, IsRound, IsLayoutAfter, count_at, CanFollow, HasCertificate, with_held, Agree};

/// Two chains whose bodies are one where their rounds are have, after each round that both have, one layout, if they have as many slots,
/// and one number of clients that counted.
pub fn chains_agree()
    ensures layouts { (chain other : ChainView) (r : ℕ) (l m : List ℕ) → IsChain chain → IsChain other → chain.slots ≡ other.slots
        → Agree chain other → IsLayoutAfter chain r l → IsLayoutAfter other r m → l ≡ m }
    ensures counts { (chain other : ChainView) (r : ℕ) → IsChain chain → IsChain other → Agree chain other
        → IsRound chain r → IsRound other r → count_at chain r ≡ count_at other r }
{}

/// A chain has one layout after a round.
pub fn layout_is_one()
    ensures { (chain : ChainView) (r : ℕ) (l m : List ℕ) → IsChain chain → IsLayoutAfter chain r l → IsLayoutAfter chain r m → l ≡ m }
{}

/// As many clients counted in a round that is held as its body lists, and none in another.
pub fn counts_are_of_bodies()
    ensures held { (chain : ChainView) (b : Body) → IsChain chain → Contains (bodies chain) b → count_at chain b.r.0 ≡ length b.listed }
    ensures unheld { (chain : ChainView) (r : ℕ) → ¬ Holds chain r → count_at chain r ≡ 0 }
    ensures first { (chain : ChainView) → IsChain chain → count_at chain 0 ≡ 0 }
{}

/// A thin body of a chain is of version 2, has no digests and no output, and leaves the layout as it was; and no accusation holds against
/// a thin body, whether a chain has it or not.
pub fn thin_rounds_give_nothing()
    ensures version { (chain : ChainView) (b : Body) → IsChain chain → Contains (bodies chain) b → IsTrue b.thin → b.version ≡ 2 }
    ensures empty { (chain : ChainView) (b : Body) → IsChain chain → Contains (bodies chain) b → IsTrue b.thin → (b.digests ≡ []) × (b.out ≡ []) }
    ensures layout { (chain : ChainView) (b : Body) (l : List ℕ) → Contains (bodies chain) b → IsTrue b.thin
        → IsLayoutAfter chain b.prev.0 l → IsLayoutAfter chain b.r.0 l }
    ensures accusation { (b : Body) (layout : List ℕ) (who : SignerId) (s : Statement) (v : Valid) → IsTrue b.thin → ¬ IsValid layout b who s v }
{}

/// What a chain holds it holds on after one body more, with the layouts after its rounds; and the one more is all that is new. How many
/// clients counted in a round of the chain stays, where the body could follow.
pub fn what_is_held_stays()
    ensures held { (chain : ChainView) (b c : Body) → Contains (bodies chain) c → Contains (with_held b (bodies chain)) c }
    ensures new { (chain : ChainView) (b : Body) → Contains (with_held b (bodies chain)) b }
    ensures only { (chain : ChainView) (b c : Body) → Contains (with_held b (bodies chain)) c → (b ≡ c) ⊎ Contains (bodies chain) c }
    ensures layouts { (chain : ChainView) (b : Body) (r : ℕ) (l : List ℕ) → IsLayoutAfter chain r l → IsLayoutAfter (record chain { held = with_held b chain.held }) r l }
    ensures counts { (chain : ChainView) (b : Body) (r : ℕ) → IsChain chain → HasCertificate b → CanFollow chain b → IsRound chain r
        → count_at (record chain { held = with_held b chain.held }) r ≡ count_at chain r }
{}

/// The layout after each round of a chain has as many slots as the chain.
pub fn layouts_have_all_slots()
    ensures { (chain : ChainView) (r : ℕ) (l : List ℕ) → IsLayoutAfter chain r l → length l ≡ chain.slots }
{}
