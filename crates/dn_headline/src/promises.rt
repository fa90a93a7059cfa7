// What follows of a run from its invariant.
ghost use Rattle.std.specs.Prelude.{ℕ, All};
ghost use Rattle.dn_record_types.specs.declared.body.Body.{Body};
ghost use Rattle.dn_record_types.specs.Exact.{IsBytes};
ghost use Rattle.dn_headline.specs.Run.{RunView, log};
ghost use Rattle.dn_headline.specs.Certified.{IsCertified};
ghost use Rattle.dn_headline.specs.Strings.{Behind};
ghost use Rattle.dn_headline.specs.Clean.{Clean};
ghost use Rattle.dn_headline.specs.Headline.{OneBodyPerRound, IncludedCountOnce, LateNeverCount, LengthsAreSound, CertifiedAreInChain, OutputIsTheirs, HonestServersAddNothing, HonestClientsAddTheirText, BlocksStand, DeliveredAreCertified, OnlyCorruptAreBlamed, AnsweredBlameSomebody};
ghost use Rattle.dn_headline.specs.Invariant.{Facts, Invariant};

/// Two certificates of one round have one body.
pub fn one_body_per_round()
    ensures { (w : RunView) (f : Facts) → Invariant w f → Clean w → OneBodyPerRound w }
{}

/// A client told Included by an honest server counts exactly once if its round is certified.
pub fn included_count_once()
    ensures { (w : RunView) (f : Facts) → Invariant w f → Clean w → IncludedCountOnce w }
{}

/// A client told only Late doesn't count.
pub fn late_never_count()
    ensures { (w : RunView) (f : Facts) → Invariant w f → Clean w → LateNeverCount w }
{}

/// Each certified body has a length, and one.
pub fn lengths_are_sound()
    ensures { (w : RunView) (f : Facts) → Invariant w f → Clean w → LengthsAreSound w }
{}

/// The run's chain holds each certified body.
pub fn certified_are_in_chain()
    ensures { (w : RunView) (f : Facts) → Invariant w f → Clean w → CertifiedAreInChain w }
{}

/// A certified output is the XOR of the counted contributions and the corrupt servers' deviations.
pub fn output_is_theirs()
    ensures { (w : RunView) (f : Facts) → Invariant w f → Clean w → OutputIsTheirs w }
{}

/// An honest server's deviation is zeros.
pub fn honest_servers_add_nothing()
    ensures { (w : RunView) (f : Facts) → Invariant w f → Clean w → HonestServersAddNothing w }
{}

/// An honest client's contribution is its plain text.
pub fn honest_clients_add_their_text()
    ensures { (w : RunView) (f : Facts) → Invariant w f → Clean w → HonestClientsAddTheirText w }
{}

/// Where at a place all other contributions and all deviations are 0, the output has an honest listed client's bit.
pub fn blocks_stand()
    ensures { (w : RunView) (f : Facts) → Invariant w f → Clean w → BlocksStand w }
{}

/// Ciphertexts and server ciphertexts stand behind each certified body, so that what is said of all of them isn't said of none.
pub fn strings_stand_behind()
    ensures { (w : RunView) (f : Facts) → Invariant w f → Clean w → All (λ p. IsBytes p.bytes) (log w).puts → (b : Body) (n : ℕ) → IsCertified w b → Behind w b n }
{}

/// A fully delivered honest round is certified.
pub fn delivered_are_certified()
    ensures { (w : RunView) (f : Facts) → Invariant w f → Clean w → DeliveredAreCertified w }
{}

/// No honest member is blamed.
pub fn only_corrupt_are_blamed()
    ensures { (w : RunView) (f : Facts) → Invariant w f → Clean w → OnlyCorruptAreBlamed w }
{}

/// A verdict on a valid accusation that names nobody as silent blames somebody, whatever the audit says.
pub fn answered_blame_somebody()
    ensures { (w : RunView) (f : Facts) → Invariant w f → AnsweredBlameSomebody w }
{}
