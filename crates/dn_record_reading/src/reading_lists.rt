// Reading lists.

ghost use Rattle.std.specs.Prelude.{◌≡◌, ◌+◌, ℕ, IfOk};
ghost use Rattle.dn_wire.specs.Cursor.{Cursor};
ghost use Rattle.dn_record_types.specs.Part.{Read, Reads};
ghost use Rattle.dn_record_types.specs.Fields.{short, word, up_to, sized, digest};
ghost use Rattle.dn_record_types.specs.Lists.{read_list, read_row, rows, several};
ghost use Rattle.dn_record_types.specs.Records.{entry, listed, shown_cipher};

use crate::reading::{
    ascending_of, bits_of, digest_of, limited_of, long_of, server_of, short_of, u32_of,
};
use dn_record_types::{
    ByteLists, Digests, Entries, Entry, Listed, RecordFault, Rows, ShownCipher, Shows,
};
use dn_wire::{Bytes, MAX_CLIENTS, MAX_SERVERS, Reader};
use std::alloc::Global;

/// Items that stand in the order of their clients.
struct Ordered;

/// Items with no order.
struct Plain;

/// Bytes behind their number of two bytes, with no order.
struct Short;

/// Bytes behind their number of four bytes, with no order.
struct Long;

/// What a list is read from, item by item; `K` says how the items are spelled and ordered.
trait ReadItem<K>: Sized {
    ghost read: { ℕ → Cursor → Read Self };

    /// The floor of the item behind this one.
    ghost next: { Self → ℕ };

    /// The next item, whose client may not be below floor, and the floor of the item behind it.
    fn read_item(alloc: Global, reader: &mut Reader, floor: u64) -> Result<(Self, u64), RecordFault>
        ensures value { Reads (λ x. x.0) result reader.new (read floor reader.old) }
        ensures floor { IfOk result (λ x. x.1 ≡ next x.0) };
}

/// So many items, one after the other.
fn list_of<K, T: ReadItem<K> + Drop>(
    alloc: Global,
    reader: &mut Reader,
    count: u32,
) -> Result<Vec<T>, RecordFault>
    ensures { Reads (λ v. v.items) result reader.new (read_list T.read T.next count 0 reader.old) }
{
    let mut list = Vec::new(alloc);
    let mut floor = 0;
    for _ in 0..count {
        let (item, next) = T::read_item(alloc, reader, floor)?;
        floor = next;
        list.push(item)?;
    }
    Ok(list)
}

impl ReadItem<Ordered> for Entry {
    ghost read = { read_row entry };

    ghost next = { λ e. e.client.0 + 1 };

    #[tactic(auto, unfolding(dn_record_types::specs::Lists::read_row))]
    fn read_item(
        alloc: Global,
        reader: &mut Reader,
        floor: u64,
    ) -> Result<(Self, u64), RecordFault> {
        let client = ascending_of(reader, floor)?;
        let digest = digest_of(reader)?;
        let signature = short_of(alloc, reader)?;
        let entry = Entry {
            client,
            digest,
            signature,
        };
        Ok((entry, u64::from(client.0) + 1))
    }
}

impl ReadItem<Ordered> for Listed {
    ghost read = { read_row listed };

    ghost next = { λ l. l.client.0 + 1 };

    #[tactic(auto, unfolding(dn_record_types::specs::Lists::read_row))]
    fn read_item(
        _alloc: Global,
        reader: &mut Reader,
        floor: u64,
    ) -> Result<(Self, u64), RecordFault> {
        let client = ascending_of(reader, floor)?;
        let server = server_of(reader)?;
        let digest = digest_of(reader)?;
        let listed = Listed {
            client,
            server,
            digest,
        };
        Ok((listed, u64::from(client.0) + 1))
    }
}

impl ReadItem<Ordered> for ShownCipher {
    ghost read = { read_row shown_cipher };

    ghost next = { λ s. s.client.0 + 1 };

    #[tactic(auto, unfolding(dn_record_types::specs::Lists::read_row))]
    fn read_item(
        alloc: Global,
        reader: &mut Reader,
        floor: u64,
    ) -> Result<(Self, u64), RecordFault> {
        let client = ascending_of(reader, floor)?;
        let cipher = bits_of(alloc, reader)?;
        Ok((ShownCipher { client, cipher }, u64::from(client.0) + 1))
    }
}

impl ReadItem<Plain> for [u8; 32] {
    ghost read = { λ _. digest.read };

    ghost next = { λ _. 0 };

    fn read_item(
        _alloc: Global,
        reader: &mut Reader,
        _floor: u64,
    ) -> Result<(Self, u64), RecordFault> {
        Ok((digest_of(reader)?, 0))
    }
}

impl ReadItem<Short> for Bytes {
    ghost read = { λ _. (sized short).read };

    ghost next = { λ _. 0 };

    fn read_item(
        alloc: Global,
        reader: &mut Reader,
        _floor: u64,
    ) -> Result<(Self, u64), RecordFault> {
        Ok((short_of(alloc, reader)?, 0))
    }
}

impl ReadItem<Long> for Bytes {
    ghost read = { λ _. (sized word).read };

    ghost next = { λ _. 0 };

    fn read_item(
        alloc: Global,
        reader: &mut Reader,
        _floor: u64,
    ) -> Result<(Self, u64), RecordFault> {
        Ok((long_of(alloc, reader)?, 0))
    }
}

#[tactic(auto, unfolding(dn_record_types::specs::Lists::read_rows))]
pub fn entries_of(alloc: Global, reader: &mut Reader) -> Result<Entries, RecordFault>
    ensures { Reads (λ x. x) result reader.new ((rows entry).read reader.old) }
{
    let count = limited_of(reader, MAX_CLIENTS)?;
    let entries = list_of::<Ordered, Entry>(alloc, reader, count)?;
    Ok(Entries::of(entries))
}

#[tactic(auto, unfolding(dn_record_types::specs::Lists::read_rows))]
pub fn rows_of(alloc: Global, reader: &mut Reader) -> Result<Rows, RecordFault>
    ensures { Reads (λ x. x) result reader.new ((rows listed).read reader.old) }
{
    let count = limited_of(reader, MAX_CLIENTS)?;
    let rows = list_of::<Ordered, Listed>(alloc, reader, count)?;
    Ok(Rows::of(rows))
}

#[tactic(auto, unfolding(dn_record_types::specs::Lists::read_rows))]
pub fn shown_of(alloc: Global, reader: &mut Reader) -> Result<Shows, RecordFault>
    ensures { Reads (λ x. x) result reader.new ((rows shown_cipher).read reader.old) }
{
    let count = limited_of(reader, MAX_CLIENTS)?;
    let shown = list_of::<Ordered, ShownCipher>(alloc, reader, count)?;
    Ok(Shows::of(shown))
}

pub fn digests_of(alloc: Global, reader: &mut Reader) -> Result<Digests, RecordFault>
    ensures { Reads (λ x. x) result reader.new ((several (up_to MAX_SERVERS) digest).read reader.old) }
{
    let count = limited_of(reader, MAX_SERVERS)?;
    let digests = list_of::<Plain, [u8; 32]>(alloc, reader, count)?;
    Ok(Digests::of(digests))
}

pub fn signatures_of(alloc: Global, reader: &mut Reader) -> Result<ByteLists, RecordFault>
    ensures { Reads (λ x. x) result reader.new ((several word (sized short)).read reader.old) }
{
    let count = u32_of(reader)?;
    let signatures = list_of::<Short, Bytes>(alloc, reader, count)?;
    Ok(ByteLists::of(signatures))
}

pub fn envelopes_of(alloc: Global, reader: &mut Reader) -> Result<ByteLists, RecordFault>
    ensures { Reads (λ x. x) result reader.new ((several (up_to MAX_SERVERS) (sized word)).read reader.old) }
{
    let count = limited_of(reader, MAX_SERVERS)?;
    let envelopes = list_of::<Long, Bytes>(alloc, reader, count)?;
    Ok(ByteLists::of(envelopes))
}
