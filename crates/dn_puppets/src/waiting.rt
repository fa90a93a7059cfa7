ghost use Rattle.std.specs.Prelude.{◌≡◌, ◌≤◌, ◌++◌, ◌∷◌, [], true, length, slice_get, Some, OnOk, OnErr};
ghost use Rattle.dn_script.specs.declared.script_line.Twist.{Twist as TwistOf};
ghost use Rattle.dn_puppets.specs.Waiting.{is_of, NoneBefore, IsFirst, Spends};
ghost use Rattle.dn_puppets.specs.Aims.{IsAim};

use dn_memory::NoMemory;
use dn_script::Twist;
use dn_wire::ClientId;
use std::alloc::Global;
use std::marker::Model;

/// Which post a twist waits for.
#[derive(Clone, Copy, Debug, PartialEq, Eq)]
pub enum TwistKind {
    /// A client's ciphertext, or a server's before it commits to it.
    Cipher,
    Reveal,
    PadBits,
    /// Any post.
    Mute,
}

/// Whether a twist changes posts of this kind.
fn is_of(kind: TwistKind, twist: Twist) -> bool
    ensures { result ≡ is_of kind twist }
{
    match (kind, twist) {
        (TwistKind::Cipher, Twist::Flip { .. } | Twist::Jam { .. }) => true,
        (TwistKind::Reveal, Twist::Reveal { .. }) => true,
        (TwistKind::PadBits, Twist::Frame { .. }) => true,
        (TwistKind::Mute, Twist::Mute) => true,
        _ => false,
    }
}

/// The twists of a member that wait, in order.
#[derive(Drop)]
pub struct Waiting {
    twists: Vec<Twist>,
}

impl Model for Waiting {
    ghost use Rattle.std.specs.Prelude.{List};
    ghost use Rattle.dn_script.specs.declared.script_line.Twist.{Twist as TwistOf};

    ghost Value = { List TwistOf };

    ghost view = { λ w. w.twists.items };
}

impl Waiting {
    /// None.
    pub fn none(alloc: Global) -> Waiting
        ensures { result ≡ [] }
    {
        Waiting {
            twists: Vec::new(alloc),
        }
    }

    /// One more, behind all others.
    pub fn add(&mut self, twist: Twist) -> Result<(), NoMemory>
        ensures added { OnOk result (self.new ≡ self.old ++ twist ∷ []) }
        ensures refused { OnErr result (self.new ≡ self.old) }
    {
        self.twists.push(twist)?;
        Ok(())
    }

    /// The place of the first of a kind; their number where there is none.
    fn place(&self, kind: TwistKind) -> usize
        ensures within { result ≤ length self.now }
        ensures before { NoneBefore kind self.now result }
        ensures there { (twist : TwistOf) → slice_get self.now result ≡ Some twist → is_of kind twist ≡ true }
    {
        for (i, twist) in self.twists.iter().enumerate() {
            if is_of(kind, *twist) {
                return i;
            }
        }
        self.twists.len()
    }

    /// The first of a kind.
    pub fn first(&self, kind: TwistKind) -> Option<Twist>
        ensures { IsFirst kind self.now result }
    {
        let place = self.place(kind);
        if place < self.twists.len() {
            Some(self.twists[place])
        } else {
            None
        }
    }

    /// Spends the first of a kind, and tells which it was.
    pub fn spend(&mut self, kind: TwistKind) -> Option<Twist>
        ensures { Spends kind self.old result self.new }
    {
        let place = self.place(kind);
        if place < self.twists.len() {
            Some(self.twists.remove(place))
        } else {
            None
        }
    }
}

/// The bit that a ciphertext's twist changes, or whose clients' slot it jams.
#[derive(Clone, Copy, Debug, PartialEq, Eq)]
pub enum Aim {
    Bit(u32),
    SlotOf(ClientId),
}

/// What the first waiting twist of a ciphertext aims at.
pub fn aim_of(waiting: &Waiting) -> Option<Aim>
    ensures { IsAim waiting.now result }
{
    match waiting.first(TwistKind::Cipher) {
        Some(Twist::Flip { k }) => Some(Aim::Bit(k)),
        Some(Twist::Jam { client }) => Some(Aim::SlotOf(client)),
        _ => None,
    }
}
