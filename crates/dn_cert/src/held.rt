ghost use Rattle.std.specs.Prelude.{◌≡◌, ◌≢◌, ◌<◌, ◌≤◌, map, length, All, Contains, IfOk, IfSome, IfNone};
ghost use Rattle.std.specs.List.{AllWithin};
ghost use Rattle.std.specs.List.Sorted.{IsStrictlyIncreasing};
ghost use Rattle.dn_cert.specs.Chain.{bits_due, layout_after};

use dn_layout::Layout;
use dn_memory::NoMemory;
use dn_records::Body;
use dn_wire::Round;
use std::alloc::Global;

/// A body that a chain holds, and the layout after its round.
#[derive(Drop)]
pub struct Held {
    pub body: Body,
    pub layout: Layout,
}

impl Held {
    /// An equal value.
    pub fn copy(&self, alloc: Global) -> Result<Held, NoMemory>
        ensures { IfOk result (λ h. h ≡ self.now) }
    {
        Ok(Held {
            body: self.body.copy(alloc)?,
            layout: self.layout.copy(alloc)?,
        })
    }
}

/// A second list of equal values.
pub fn copies(alloc: Global, held: &[Held]) -> Result<Vec<Held>, NoMemory>
    ensures { IfOk result (λ v. v.items ≡ held.now) }
{
    let mut list = Vec::new(alloc);
    for each in held {
        list.push(each.copy(alloc)?)?;
    }
    Ok(list)
}

/// How many bits the output of a body has that comes after this layout.
pub fn bits_due(before: &Layout, body: &Body) -> u32
    ensures { result ≡ bits_due before.now body.now }
{
    if body.thin { 0 } else { before.bits() }
}

/// The layout after a body that comes after this one.
pub fn layout_after(alloc: Global, before: &Layout, body: &Body) -> Result<Layout, NoMemory>
    requires { length body.now.out ≡ bits_due before.now body.now }
    ensures { IfOk result (λ l. l ≡ layout_after before.now body.now) }
{
    if body.thin {
        before.copy(alloc)
    } else {
        before.next(alloc, &body.out)
    }
}

/// How many of them are of rounds below `r`.
pub fn count_below(held: &[Held], r: Round) -> usize
    requires { IsStrictlyIncreasing (map (λ h. h.body.r.0) held.now) }
    ensures bound { result ≤ length held.now }
    ensures below { AllWithin (λ h. h.body.r.0 < r.0) held.now 0 result }
    ensures above { AllWithin (λ h. r.0 ≤ h.body.r.0) held.now result (length held.now) }
{
    held.partition_point(|h| h.body.r < r)
}

/// The one of round `r`.
pub fn find(held: &[Held], r: Round) -> Option<&Held>
    requires { IsStrictlyIncreasing (map (λ h. h.body.r.0) held.now) }
    ensures found { IfSome result (λ h. Contains held.now h.now × (h.now.body.r ≡ r)) }
    ensures missing { IfNone result (All (λ h. h.body.r.0 ≢ r.0) held.now) }
{
    let at = count_below(held, r);
    if at < held.len() && held[at].body.r == r {
        Some(&held[at])
    } else {
        None
    }
}
