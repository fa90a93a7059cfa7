// What a run's audit asks, as lists that can be made and tested.
ghost use Rattle.std.specs.Prelude.{◌≡◌, ◌↔◌, ◌⊎◌, List, All};
ghost use Rattle.dn_record_types.specs.Exact.{IsBytes};
ghost use Rattle.dn_cert.specs.Chain.{ChainView};
ghost use Rattle.dn_headline.specs.Run.{RunView, log};
ghost use Rattle.dn_headline.specs.Certified.{IsRunChain};
ghost use Rattle.dn_headline.specs.Clean.{Clean, DigestsDiffer, SignaturesAreTheirs, SomeServerIsHonest};
ghost use Rattle.dn_headline.specs.Audit.{AreSignatures, AreStrings, AreTheirs, BitsAt, NoneCollide, SeedAt, SignatureAt};

/// A run whose puts are bytes has a chain, and one.
pub fn each_run_has_one_chain()
    ensures some { (w : RunView) → All (λ p. IsBytes p.bytes) (log w).puts → (chain : ChainView) × IsRunChain w chain }
    ensures one { (w : RunView) (a b : ChainView) → IsRunChain w a → IsRunChain w b → a ≡ b }
{}

/// The strings of a run whose puts are bytes are finitely many.
pub fn each_run_has_its_strings()
    ensures { (w : RunView) → All (λ p. IsBytes p.bytes) (log w).puts
        → (seeds : List SeedAt) × (ciphers : List BitsAt) × (sums : List BitsAt) × AreStrings w seeds ciphers sums }
{}

/// The signatures that verify in the payloads of a run whose puts are bytes are finitely many.
pub fn each_run_has_its_signatures()
    ensures { (w : RunView) → All (λ p. IsBytes p.bytes) (log w).puts → (xs : List SignatureAt) × AreSignatures w xs }
{}

/// The audit's three words can be decided: the first on the list of all signatures, the second on the lists of the run's strings.
pub fn audits_are_decided()
    ensures signed { (w : RunView) (xs : List SignatureAt) → AreSignatures w xs → AreTheirs w xs ↔ SignaturesAreTheirs w }
    ensures collide { (w : RunView) (seeds : List SeedAt) (ciphers sums : List BitsAt) → AreStrings w seeds ciphers sums
        → NoneCollide seeds ciphers sums ↔ DigestsDiffer w }
    ensures lists { (seeds : List SeedAt) (ciphers sums : List BitsAt) → NoneCollide seeds ciphers sums ⊎ ¬ NoneCollide seeds ciphers sums }
    ensures theirs { (w : RunView) → All (λ p. IsBytes p.bytes) (log w).puts → (xs : List SignatureAt) → AreTheirs w xs ⊎ ¬ AreTheirs w xs }
    ensures signatures { (w : RunView) → All (λ p. IsBytes p.bytes) (log w).puts → SignaturesAreTheirs w ⊎ ¬ SignaturesAreTheirs w }
    ensures digests { (w : RunView) → All (λ p. IsBytes p.bytes) (log w).puts → DigestsDiffer w ⊎ ¬ DigestsDiffer w }
    ensures honest { (w : RunView) → SomeServerIsHonest w ⊎ ¬ SomeServerIsHonest w }
    ensures clean { (w : RunView) → All (λ p. IsBytes p.bytes) (log w).puts → Clean w ⊎ ¬ Clean w }
{}
