// The next field of a line, as a value.

ghost use Rattle.std.specs.Prelude.{◌≡◌, ◌∷◌, [], MatchResult, Ok, Err};
ghost use Rattle.dn_lines.specs.Field.{Gives, Reads};
ghost use Rattle.dn_lines.specs.Form.{take_field, at_end};
ghost use Rattle.dn_lines.specs.Fields.{number, long_number, bytes, client, server, slot, round, member};

use crate::fault::LineFault;
use crate::fields::Fields;
use crate::hex_text::bytes;
use crate::members::{client, member, server, small};
use crate::numbers::number;
use dn_wire::{Bytes, ClientId, Member, Round, ServerId, SlotId};
use std::alloc::Global;

/// The next field, which must be there.
pub fn text_of<'a>(fields: &mut Fields<'a>) -> Result<&'a [u8], LineFault>
    ensures { MatchResult result (λ text. fields.old ≡ text.now ∷ fields.new)
        (λ e. (e ≡ LineFault.Grammar) × (fields.old ≡ [])) }
{
    fields.take().ok_or(LineFault::Grammar)
}

/// No field is left.
pub fn end_of(fields: &mut Fields) -> Result<(), LineFault>
    ensures { Gives (λ x. x) result (at_end fields.old) }
{
    match fields.take() {
        None => Ok(()),
        Some(_) => Err(LineFault::Grammar),
    }
}

pub fn number_of(fields: &mut Fields) -> Result<u32, LineFault>
    ensures { Reads (λ x. x) result fields.new (take_field number fields.old) }
{
    small(text_of(fields)?).ok_or(LineFault::Grammar)
}

pub fn long_number_of(fields: &mut Fields) -> Result<u64, LineFault>
    ensures { Reads (λ x. x) result fields.new (take_field long_number fields.old) }
{
    number(0, u64::MAX, text_of(fields)?).ok_or(LineFault::Grammar)
}

pub fn bytes_of(alloc: Global, fields: &mut Fields) -> Result<Bytes, LineFault>
    ensures { Reads (λ x. x) result fields.new (take_field bytes fields.old) }
{
    Ok(Bytes::of(bytes(alloc, text_of(fields)?)?))
}

pub fn client_of(fields: &mut Fields) -> Result<ClientId, LineFault>
    ensures { Reads (λ x. x) result fields.new (take_field client fields.old) }
{
    client(text_of(fields)?).ok_or(LineFault::Grammar)
}

pub fn server_of(fields: &mut Fields) -> Result<ServerId, LineFault>
    ensures { Reads (λ x. x) result fields.new (take_field server fields.old) }
{
    server(text_of(fields)?).ok_or(LineFault::Grammar)
}

pub fn member_of(fields: &mut Fields) -> Result<Member, LineFault>
    ensures { Reads (λ x. x) result fields.new (take_field member fields.old) }
{
    member(text_of(fields)?).ok_or(LineFault::Grammar)
}

pub fn slot_of(fields: &mut Fields) -> Result<SlotId, LineFault>
    ensures { Reads (λ x. x) result fields.new (take_field slot fields.old) }
{
    Ok(SlotId(number_of(fields)?))
}

pub fn round_of(fields: &mut Fields) -> Result<Round, LineFault>
    ensures { Reads (λ x. x) result fields.new (take_field round fields.old) }
{
    Ok(Round(long_number_of(fields)?))
}
