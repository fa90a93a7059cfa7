ghost use Rattle.std.specs.Prelude.{◌≡◌, ◌<◌, ◌↔◌, ℕ, List, IfOk, IsTrue};

use dn_memory::NoMemory;
use std::alloc::Global;

/// A key that signs at numbered leaves, each of which may sign one message.
pub trait SigKey {
    /// Which values are keys.
    ghost IsOne: { Self → Type 0 };

    /// The number of leaves.
    ghost count: { Self → ℕ };

    /// The public key.
    ghost public_bytes: { Self → List ℕ };

    /// The signature at a leaf of a message.
    ghost signature: { Self → ℕ → List ℕ → List ℕ };

    /// Under a public key, for a message, a signature verifies.
    ghost Checks: { List ℕ → List ℕ → List ℕ → Type 0 };

    /// The number of leaves.
    fn leaves(&self) -> u32
        ensures key { IsOne self.now }
        ensures count { result ≡ count self.now };

    /// The public key.
    fn public(&self, alloc: Global) -> Result<Vec<u8>, NoMemory>
        ensures { IfOk result (λ public. public.items ≡ public_bytes self.now) };

    /// The signature of a message at leaf q, counted from 0.
    fn sign_at(&self, alloc: Global, q: u32, msg: &[u8]) -> Result<Vec<u8>, NoMemory>
        requires { q < count self.now }
        ensures { IfOk result (λ sig. sig.items ≡ signature self.now q msg.now) };

    /// Whether a signature verifies for a message under a public key.
    fn check(public: &[u8], msg: &[u8], sig: &[u8]) -> bool
        ensures { IsTrue result ↔ Checks public.now msg.now sig.now };

    /// What `sign_at` gives checks under what `public` gives.
    ghost signs: { (key : Self) (q : ℕ) (msg : List ℕ) → IsOne key → q < count key
        → Checks (public_bytes key) msg (signature key q msg) };
}
