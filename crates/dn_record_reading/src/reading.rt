// Reading single fields, with a record's faults.

ghost use Rattle.std.specs.Prelude.{◌≡◌, ◌+◌, ◌/◌, length, IfOk};
ghost use Rattle.std.specs.Int.{w16, w32, w64};
ghost use Rattle.dn_record_types.specs.Part.{Reads};
ghost use Rattle.dn_record_types.specs.Fields.{read_byte, read_number, read_limited, read_bytes, read_inner, read_few, read_flag, sized, short, word, up_to, round, client_field, server_field, slot_field, digest};
ghost use Rattle.dn_record_types.specs.Lists.{read_client};
ghost use Rattle.dn_record_types.specs.Fields.{ends_in_zeros, read_bits};

use dn_bits::{Bits, BitsFault};
use dn_record_types::RecordFault;
use dn_wire::{Bytes, ClientId, MAX_BITS, Reader, Round, ServerId, SlotId};
use std::alloc::Global;

#[tactic(auto, using(crate::proofs::FieldFaults::field_fails), unfolding(dn_record_types::specs::Fields::read_byte))]
pub fn u8_of(reader: &mut Reader) -> Result<u8, RecordFault>
    ensures { Reads (λ x. x) result reader.new (read_byte reader.old) }
{
    Ok(reader.take_u8()?)
}

#[tactic(auto, using(crate::proofs::FieldFaults::field_fails), unfolding(dn_record_types::specs::Fields::read_number))]
pub fn u16_of(reader: &mut Reader) -> Result<u16, RecordFault>
    ensures { Reads (λ x. x) result reader.new (read_number w16 reader.old) }
{
    Ok(reader.take_u16()?)
}

#[tactic(auto, using(crate::proofs::FieldFaults::field_fails), unfolding(dn_record_types::specs::Fields::read_number))]
pub fn u32_of(reader: &mut Reader) -> Result<u32, RecordFault>
    ensures { Reads (λ x. x) result reader.new (read_number w32 reader.old) }
{
    Ok(reader.take_u32()?)
}

#[tactic(auto, using(crate::proofs::FieldFaults::field_fails), unfolding(dn_record_types::specs::Fields::read_number))]
pub fn u64_of(reader: &mut Reader) -> Result<u64, RecordFault>
    ensures { Reads (λ x. x) result reader.new (read_number w64 reader.old) }
{
    Ok(reader.take_u64()?)
}

#[tactic(auto, using(crate::proofs::FieldFaults::field_fails), unfolding(dn_record_types::specs::Fields::read_limited))]
pub fn limited_of(reader: &mut Reader, limit: u32) -> Result<u32, RecordFault>
    ensures { Reads (λ x. x) result reader.new (read_limited limit reader.old) }
{
    Ok(reader.take_max(limit)?)
}

#[tactic(auto, using(crate::proofs::FieldFaults::field_fails), unfolding(dn_record_types::specs::Fields::read_bytes))]
pub fn bytes_of<'a>(reader: &mut Reader<'a>, n: usize) -> Result<&'a [u8], RecordFault>
    ensures value { Reads (λ x. x.now) result reader.new (read_bytes n reader.old) }
    ensures size { IfOk result (λ x. length x.now ≡ n) }
{
    Ok(reader.take_bytes(n)?)
}

/// A reader of the next n bytes alone.
#[tactic(auto, using(crate::proofs::FieldFaults::field_fails), unfolding(dn_record_types::specs::Fields::read_inner))]
pub fn inner_of<'a>(reader: &mut Reader<'a>, n: usize) -> Result<Reader<'a>, RecordFault>
    ensures { Reads (λ x. x) result reader.new (read_inner n reader.old) }
{
    Ok(reader.take_inner(n)?)
}

/// A byte with one of the values 1 to n.
#[tactic(auto, unfolding(dn_record_types::specs::Fields::read_few))]
pub fn few_of(reader: &mut Reader, n: u8) -> Result<u8, RecordFault>
    ensures { Reads (λ x. x) result reader.new (read_few n reader.old) }
{
    let at = reader.at();
    let byte = u8_of(reader)?;
    if byte == 0 || n < byte {
        return Err(RecordFault::Shape { at });
    }
    Ok(byte)
}

/// A byte that is 1 for yes and 0 for no.
#[tactic(auto, unfolding(dn_record_types::specs::Fields::read_flag))]
pub fn flag_of(reader: &mut Reader) -> Result<bool, RecordFault>
    ensures { Reads (λ x. x) result reader.new (read_flag reader.old) }
{
    let at = reader.at();
    let byte = u8_of(reader)?;
    if 1 < byte {
        return Err(RecordFault::Shape { at });
    }
    Ok(byte == 1)
}

pub fn round_of(reader: &mut Reader) -> Result<Round, RecordFault>
    ensures { Reads (λ x. x) result reader.new (round.read reader.old) }
{
    Ok(Round(u64_of(reader)?))
}

pub fn client_of(reader: &mut Reader) -> Result<ClientId, RecordFault>
    ensures { Reads (λ x. x) result reader.new (client_field.read reader.old) }
{
    Ok(ClientId(u32_of(reader)?))
}

pub fn server_of(reader: &mut Reader) -> Result<ServerId, RecordFault>
    ensures { Reads (λ x. x) result reader.new (server_field.read reader.old) }
{
    Ok(ServerId(u32_of(reader)?))
}

pub fn slot_of(reader: &mut Reader) -> Result<SlotId, RecordFault>
    ensures { Reads (λ x. x) result reader.new (slot_field.read reader.old) }
{
    Ok(SlotId(u32_of(reader)?))
}

pub fn digest_of(reader: &mut Reader) -> Result<[u8; 32], RecordFault>
    ensures { Reads (λ x. x) result reader.new (digest.read reader.old) }
{
    let bytes = bytes_of(reader, 32)?;
    let mut digest = [0; 32];
    digest.copy_from_slice(bytes);
    Ok(digest)
}

/// Bytes behind their number of two bytes.
pub fn short_of(alloc: Global, reader: &mut Reader) -> Result<Bytes, RecordFault>
    ensures { Reads (λ x. x) result reader.new ((sized short).read reader.old) }
{
    let count = u16_of(reader)?;
    let bytes = bytes_of(reader, count as usize)?;
    Ok(Bytes::of(Vec::from_slice(alloc, bytes)?))
}

/// Bytes behind their number of four bytes.
pub fn long_of(alloc: Global, reader: &mut Reader) -> Result<Bytes, RecordFault>
    ensures { Reads (λ x. x) result reader.new ((sized word).read reader.old) }
{
    let count = u32_of(reader)?;
    let bytes = bytes_of(reader, count as usize)?;
    Ok(Bytes::of(Vec::from_slice(alloc, bytes)?))
}

/// Bytes behind their number of four bytes, which may not be above the limit.
pub fn limited_bytes_of(
    alloc: Global,
    reader: &mut Reader,
    limit: u32,
) -> Result<Bytes, RecordFault>
    ensures { Reads (λ x. x) result reader.new ((sized (up_to limit)).read reader.old) }
{
    let count = limited_of(reader, limit)?;
    let bytes = bytes_of(reader, count as usize)?;
    Ok(Bytes::of(Vec::from_slice(alloc, bytes)?))
}

/// A client that may not be below floor.
#[tactic(auto, unfolding(dn_record_types::specs::Lists::read_client))]
pub fn ascending_of(reader: &mut Reader, floor: u64) -> Result<ClientId, RecordFault>
    ensures { Reads (λ x. x) result reader.new (read_client floor reader.old) }
{
    let at = reader.at();
    let client = client_of(reader)?;
    if u64::from(client.0) < floor {
        return Err(RecordFault::Shape { at });
    }
    Ok(client)
}

/// Whether the bits of the bytes after the first n are zeros.
fn ends_in_zeros(bytes: &[u8], n: u32) -> bool
    requires { length bytes.now ≡ (n + 7) / 8 }
    ensures { result ≡ ends_in_zeros bytes.now n }
{
    match bytes.last() {
        None => true,
        Some(last) => u32::from(*last) % (1 << ((8 - n % 8) % 8)) == 0,
    }
}

/// A bit string.
#[tactic(auto, unfolding(dn_record_types::specs::Fields::read_bits))]
pub fn bits_of(alloc: Global, reader: &mut Reader) -> Result<Bits, RecordFault>
    ensures { Reads (λ x. x) result reader.new (read_bits reader.old) }
{
    let count = limited_of(reader, MAX_BITS)?;
    let bytes = bytes_of(reader, count.div_ceil(8) as usize)?;
    if !ends_in_zeros(bytes, count) {
        let at = reader.at().saturating_sub(1);
        return Err(RecordFault::Shape { at });
    }
    match Bits::from_bytes(alloc, bytes, count) {
        Ok(bits) => Ok(bits),
        Err(BitsFault::Short { .. }) => unreachable!(),
        Err(BitsFault::NoMemory) => Err(RecordFault::NoMemory),
    }
}
