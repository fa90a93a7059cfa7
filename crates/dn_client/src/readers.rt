// What can be read of a client.
ghost use Rattle.std.specs.Prelude.{◌≡◌, ◌≢◌, Contains, IfSome, IfNone};
ghost use Rattle.dn_client.specs.declared.made.Made.{Made};
ghost use Rattle.dn_client.specs.Client.{IsClient};
ghost use Rattle.dn_client.specs.Accusing.{IsSlotStart};
ghost use Rattle.dn_client.specs.Submitting.{IsSlotRange};

use crate::client::Client;
use crate::made::find;
use dn_bits::Bits;
use dn_wire::Round;

impl Client {
    /// The first place of the client's slot in round `r`, on the layout after the prev of the certificate that it holds of the round; nothing
    /// where it holds none or the slot is closed there.
    pub fn slot_start(&self, r: Round) -> Option<u32>
        ensures start { IsSlotStart self.now r result }
        ensures client { IsClient self.now }
    {
        let body = self.chain.body(r)?;
        let (first, _) = self.range_in(body)?;
        Some(first)
    }

    /// The first place of the client's slot and the place past its last, on the layout on which its submission of round `r` was made; nothing
    /// where it made none or the slot was closed there.
    pub fn slot_range(&self, r: Round) -> Option<(u32, u32)>
        ensures range { IsSlotRange self.now r result }
        ensures client { IsClient self.now }
    {
        find(&self.made, r)?.range
    }

    /// The plain text of the client's submission of round `r`; nothing where it made none.
    pub fn plain(&self, r: Round) -> Option<&Bits>
        ensures some { IfSome result (λ plain. (m : Made) × Contains self.now.made m × (m.r ≡ r) × (plain.now ≡ m.plain)) }
        ensures none { IfNone result ((m : Made) → Contains self.now.made m → m.r ≢ r) }
        ensures client { IsClient self.now }
    {
        Some(&find(&self.made, r)?.plain)
    }
}
