// The fields of a line, and what is spelled in them.

use anyhow::{Context, Result, ensure};
use hex::FromHex;
use std::alloc::{AllocError, Global};
use std::error::Error;
use std::str::FromStr;

/// The fields of a text, with one separator between two of them.
pub fn split<'a>(
    alloc: Global,
    text: &'a str,
    separator: char,
) -> Result<Vec<&'a str>, AllocError> {
    text.split(separator).collect(alloc)
}

/// The field at a place.
pub fn text<'a>(fields: &[&'a str], place: usize) -> Result<&'a str> {
    Ok(*fields.get(place).context("a field is missing")?)
}

/// The number at a place.
pub fn number_at<T: FromStr>(fields: &[&str], place: usize) -> Result<T>
where
    T::Err: Error,
{
    let field = text(fields, place)?;
    field
        .parse::<T>()
        .context(format_args!("field {place} is no such number"))
}

/// The bytes at a place: hex, or `-` for none.
pub fn bytes_at(alloc: Global, fields: &[&str], place: usize) -> Result<Vec<u8>> {
    let field = text(fields, place)?;
    if field == "-" {
        return Ok(Vec::new(alloc));
    }
    hex::decode(alloc, field).context(format_args!("field {place} is no hex"))
}

/// The bytes at a place, where they are as many as the array has.
pub fn array_at<const N: usize>(fields: &[&str], place: usize) -> Result<[u8; N]> {
    let field = text(fields, place)?;
    <[u8; N] as FromHex>::from_hex(field).context(format_args!(
        "field {place} is no hex of {N} bytes"
    ))
}

/// No field stands at a place or after it.
pub fn end_at(fields: &[&str], place: usize) -> Result<()> {
    ensure!(fields.len() <= place, "a field too many");
    Ok(())
}

/// Whether the last field, at this place, has these bytes.
pub fn ends_in(alloc: Global, fields: &[&str], place: usize, bytes: &[u8]) -> Result<bool> {
    end_at(fields, place.saturating_add(1))?;
    Ok(bytes_at(alloc, fields, place)?.as_slice() == bytes)
}
