// Reading many inventories: what a server reads from the others in a round.

use anyhow::{Result, bail};
use dn_memory::NoMemory;
use dn_records::{Statement, decode};
use dn_wire::{put_bytes, put_u8, put_u16, put_u32, put_u64};
use std::alloc::Global;

/// The kind of an inventory among statements.
const INVENTORY: u8 = 3;

/// The bytes of an inventory of so many entries, whose signatures have so many bytes.
fn inventory(alloc: Global, entries: u32, size: u16) -> std::result::Result<Vec<u8>, NoMemory> {
    let signature = vec![in alloc; 0x5a; size as usize]?;
    let mut bytes = Vec::new(alloc);
    put_u8(&mut bytes, INVENTORY)?;
    put_u64(&mut bytes, 2)?;
    put_u64(&mut bytes, 1)?;
    put_u32(&mut bytes, entries)?;
    for client in 0..entries {
        put_u32(&mut bytes, client)?;
        put_bytes(&mut bytes, &[0xa5; 32])?;
        put_u16(&mut bytes, size)?;
        put_bytes(&mut bytes, &signature)?;
    }
    Ok(bytes)
}

/// How many entries an inventory is read as.
fn entries_of(alloc: Global, bytes: &[u8]) -> Result<u64> {
    match decode(alloc, bytes) {
        Ok(Statement::Inventory(inventory)) => Ok(inventory.entries.get().len() as u64),
        Ok(_) => bail!("another statement"),
        Err(fault) => bail!("no statement: {fault:?}"),
    }
}

/// Reads an inventory so many times. The line has the bytes and the entries that were read.
pub fn line(alloc: Global, count: u32, entries: u32, size: u16) -> Result<String> {
    let Ok(bytes) = inventory(alloc, entries, size) else {
        bail!("no memory");
    };
    let mut read = 0u64;
    let mut total = 0u64;
    for _ in 0..count {
        total = total.saturating_add(entries_of(alloc, &bytes)?);
        read = read.saturating_add(bytes.len() as u64);
    }
    Ok(format!(in alloc; "{read} bytes, {total} entries")?)
}
