// Writing fields and lists: each appends its bytes.

ghost use Rattle.std.specs.Prelude.{◌≡◌, ◌<◌, ◌^◌, ◌++◌, ℕ, List, length, OnOk};
ghost use Rattle.std.specs.List.{AllByRecursion, flat_map};
ghost use Rattle.dn_wire.specs.declared.limits.TheConstants.{MAX_SERVERS};
ghost use Rattle.dn_record_types.specs.Fields.{short, word, long, up_to, sized, bits, digest};
ghost use Rattle.dn_record_types.specs.Lists.{spell_row, FitsRow, rows, several};
ghost use Rattle.dn_record_types.specs.Records.{entry, listed, shown_cipher, inventory, thin_in, body};

use dn_bits::Bits;
use dn_memory::NoMemory;
use dn_record_types::{
    Body, ByteLists, Digests, Entries, Entry, Inventory, Listed, Rows, ShownCipher, Shows,
};
use dn_wire::{Bytes, put_bytes, put_u8, put_u16, put_u32, put_u64};
use std::alloc::Global;

#[tactic(auto, unfolding(dn_record_types::specs::Fields::spell_number))]
fn put_short(out: &mut Vec<u8>, n: u16) -> Result<(), NoMemory>
    ensures { OnOk result (out.new.items ≡ out.old.items ++ short.spell n) }
{
    put_u16(out, n)
}

#[tactic(auto, unfolding(dn_record_types::specs::Fields::spell_number))]
pub fn put_word(out: &mut Vec<u8>, n: u32) -> Result<(), NoMemory>
    ensures { OnOk result (out.new.items ≡ out.old.items ++ word.spell n) }
{
    put_u32(out, n)
}

#[tactic(auto, unfolding(dn_record_types::specs::Fields::spell_number))]
pub fn put_long(out: &mut Vec<u8>, n: u64) -> Result<(), NoMemory>
    ensures { OnOk result (out.new.items ≡ out.old.items ++ long.spell n) }
{
    put_u64(out, n)
}

/// Bytes behind their number of two bytes.
fn put_sized_short(out: &mut Vec<u8>, bytes: &[u8]) -> Result<(), NoMemory>
    requires { length bytes.now < 2 ^ 16 }
    ensures { OnOk result (out.new.items ≡ out.old.items ++ (sized short).spell bytes.now) }
{
    put_short(out, bytes.len() as u16)?;
    put_bytes(out, bytes)
}

/// Bytes behind their number of four bytes.
pub fn put_sized_word(out: &mut Vec<u8>, bytes: &[u8]) -> Result<(), NoMemory>
    requires { length bytes.now < 2 ^ 32 }
    ensures { OnOk result (out.new.items ≡ out.old.items ++ (sized word).spell bytes.now) }
{
    put_word(out, bytes.len() as u32)?;
    put_bytes(out, bytes)
}

pub fn put_bits(alloc: Global, out: &mut Vec<u8>, string: &Bits) -> Result<(), NoMemory>
    ensures { OnOk result (out.new.items ≡ out.old.items ++ bits.spell string.now) }
{
    put_word(out, string.len())?;
    string.write_bytes(alloc, out)
}

/// Bytes behind their number of two bytes.
struct Short;

/// Bytes behind their number of four bytes.
struct Long;

/// Items with one spelling.
struct Alone;

/// What a list is written from, item by item; `K` says how the items are spelled.
trait WriteItem<K> {
    ghost spell: { Self → List ℕ };

    ghost fits: { Self → Type 0 };

    /// Appends the item's bytes.
    fn put_item(&self, alloc: Global, out: &mut Vec<u8>) -> Result<(), NoMemory>
        requires { fits self.now }
        ensures { OnOk result (out.new.items ≡ out.old.items ++ spell self.now) };
}

/// The items, one after the other, behind their number.
fn put_items<K, T: WriteItem<K>>(
    alloc: Global,
    out: &mut Vec<u8>,
    items: &[T],
) -> Result<(), NoMemory>
    requires { AllByRecursion T.fits items.now }
    ensures { OnOk result (out.new.items ≡ out.old.items ++ flat_map T.spell items.now) }
{
    for item in items {
        item.put_item(alloc, out)?;
    }
    Ok(())
}

impl WriteItem<Alone> for Entry {
    ghost spell = { spell_row entry };

    ghost fits = { FitsRow entry };

    fn put_item(&self, _alloc: Global, out: &mut Vec<u8>) -> Result<(), NoMemory> {
        put_word(out, self.client.0)?;
        put_bytes(out, &self.digest)?;
        put_sized_short(out, self.signature.get())
    }
}

impl WriteItem<Alone> for Listed {
    ghost spell = { spell_row listed };

    ghost fits = { FitsRow listed };

    fn put_item(&self, _alloc: Global, out: &mut Vec<u8>) -> Result<(), NoMemory> {
        put_word(out, self.client.0)?;
        put_word(out, self.server.0)?;
        put_bytes(out, &self.digest)
    }
}

impl WriteItem<Alone> for ShownCipher {
    ghost spell = { spell_row shown_cipher };

    ghost fits = { FitsRow shown_cipher };

    fn put_item(&self, alloc: Global, out: &mut Vec<u8>) -> Result<(), NoMemory> {
        put_word(out, self.client.0)?;
        put_bits(alloc, out, &self.cipher)
    }
}

impl WriteItem<Alone> for [u8; 32] {
    ghost spell = { digest.spell };

    ghost fits = { digest.Fits };

    fn put_item(&self, _alloc: Global, out: &mut Vec<u8>) -> Result<(), NoMemory> {
        put_bytes(out, self)
    }
}

impl WriteItem<Short> for Bytes {
    ghost spell = { (sized short).spell };

    ghost fits = { (sized short).Fits };

    fn put_item(&self, _alloc: Global, out: &mut Vec<u8>) -> Result<(), NoMemory> {
        put_sized_short(out, self.get())
    }
}

impl WriteItem<Long> for Bytes {
    ghost spell = { (sized word).spell };

    ghost fits = { (sized word).Fits };

    fn put_item(&self, _alloc: Global, out: &mut Vec<u8>) -> Result<(), NoMemory> {
        put_sized_word(out, self.get())
    }
}

fn put_entries(alloc: Global, out: &mut Vec<u8>, list: &Entries) -> Result<(), NoMemory>
    requires { (rows entry).Fits list.now }
    ensures { OnOk result (out.new.items ≡ out.old.items ++ (rows entry).spell list.now) }
{
    let items = list.get();
    put_word(out, items.len() as u32)?;
    put_items::<Alone, Entry>(alloc, out, items)
}

fn put_rows(alloc: Global, out: &mut Vec<u8>, list: &Rows) -> Result<(), NoMemory>
    requires { (rows listed).Fits list.now }
    ensures { OnOk result (out.new.items ≡ out.old.items ++ (rows listed).spell list.now) }
{
    let items = list.get();
    put_word(out, items.len() as u32)?;
    put_items::<Alone, Listed>(alloc, out, items)
}

pub fn put_shows(alloc: Global, out: &mut Vec<u8>, list: &Shows) -> Result<(), NoMemory>
    requires { (rows shown_cipher).Fits list.now }
    ensures { OnOk result (out.new.items ≡ out.old.items ++ (rows shown_cipher).spell list.now) }
{
    let items = list.get();
    put_word(out, items.len() as u32)?;
    put_items::<Alone, ShownCipher>(alloc, out, items)
}

fn put_digests(alloc: Global, out: &mut Vec<u8>, list: &Digests) -> Result<(), NoMemory>
    requires { (several (up_to MAX_SERVERS) digest).Fits list.now }
    ensures { OnOk result (out.new.items ≡ out.old.items ++ (several (up_to MAX_SERVERS) digest).spell list.now) }
{
    let items = list.get();
    put_word(out, items.len() as u32)?;
    put_items::<Alone, [u8; 32]>(alloc, out, items)
}

pub fn put_signatures(alloc: Global, out: &mut Vec<u8>, list: &ByteLists) -> Result<(), NoMemory>
    requires { (several word (sized short)).Fits list.now }
    ensures { OnOk result (out.new.items ≡ out.old.items ++ (several word (sized short)).spell list.now) }
{
    let items = list.get();
    put_word(out, items.len() as u32)?;
    put_items::<Short, Bytes>(alloc, out, items)
}

pub fn put_envelopes(alloc: Global, out: &mut Vec<u8>, list: &ByteLists) -> Result<(), NoMemory>
    requires { (several (up_to MAX_SERVERS) (sized word)).Fits list.now }
    ensures { OnOk result (out.new.items ≡ out.old.items ++ (several (up_to MAX_SERVERS) (sized word)).spell list.now) }
{
    let items = list.get();
    put_word(out, items.len() as u32)?;
    put_items::<Long, Bytes>(alloc, out, items)
}

pub fn put_inventory(alloc: Global, out: &mut Vec<u8>, v: &Inventory) -> Result<(), NoMemory>
    requires { inventory.Fits v.now }
    ensures { OnOk result (out.new.items ≡ out.old.items ++ inventory.spell v.now) }
{
    put_long(out, v.r.0)?;
    put_long(out, v.prev.0)?;
    put_entries(alloc, out, &v.entries)
}

/// Whether a body of this version is thin.
#[tactic(auto, unfolding(dn_record_types::specs::Records::spell_thin))]
fn put_thin(out: &mut Vec<u8>, version: u8, thin: bool) -> Result<(), NoMemory>
    ensures { OnOk result (out.new.items ≡ out.old.items ++ (thin_in version).spell thin) }
{
    if version == 2 {
        put_u8(out, u8::from(thin))?;
    }
    Ok(())
}

pub fn put_body(alloc: Global, out: &mut Vec<u8>, b: &Body) -> Result<(), NoMemory>
    requires { body.Fits b.now }
    ensures { OnOk result (out.new.items ≡ out.old.items ++ body.spell b.now) }
{
    put_u8(out, b.version)?;
    put_long(out, b.r.0)?;
    put_long(out, b.prev.0)?;
    put_thin(out, b.version, b.thin)?;
    put_rows(alloc, out, &b.listed)?;
    put_digests(alloc, out, &b.digests)?;
    put_bits(alloc, out, &b.out)
}
