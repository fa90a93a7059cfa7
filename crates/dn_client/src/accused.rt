ghost use Rattle.std.specs.Prelude.{◌≡◌, Contains, IfSome, IfNone};
ghost use Rattle.dn_client.specs.declared.accused.Accused.{Accused};

use dn_wire::{Bytes, Round};

/// An accusation that a client made.
#[derive(Drop)]
pub struct Accused {
    pub r: Round,
    pub k: u32,
    pub envelope: Bytes,
}

/// The one of round `r` at place `k`. There are no more of them than the slot's key has leaves.
pub fn find(accused: &[Accused], r: Round, k: u32) -> Option<&Accused>
    ensures found { IfSome result (λ a. Contains accused.now a.now × (a.now.r ≡ r) × (a.now.k ≡ k)) }
    ensures missing { IfNone result ((a : Accused) → Contains accused.now a → a.r ≡ r → a.k ≡ k → ⊥) }
{
    accused.iter().find(|a| a.r == r && a.k == k)
}
