ghost use Rattle.std.specs.Prelude.{◌≡◌, ◌+◌, ◌<◌, ◌≤◌, ◌^◌, length};
ghost use Rattle.std.specs.Int.{w16, w32, w64};
ghost use Rattle.dn_wire.specs.Cursor.{past};
ghost use Rattle.dn_wire.specs.Fields.{Takes, byte_at, number_at, bytes_at, inner_at, limited_at};

use std::marker::Model;

/// Why a field could not be read.
#[derive(Clone, Copy, Debug, PartialEq, Eq)]
pub enum FieldFault {
    /// The field begins at place `at`, counted in bytes from 0, and passes the end of the bytes.
    Cut { at: u64 },
    /// The number that begins at place `at` is above `limit`.
    Over { at: u64, limit: u32 },
}

/// Reads fields from bytes, one after the other from the left.
#[derive(Drop)]
pub struct Reader<'a> {
    at: u64,
    rest: &'a [u8],
}

impl<'a> Model for Reader<'a> {
    ghost use Rattle.std.specs.Prelude.{◌+◌, ◌<◌, ◌^◌, length};
    ghost use Rattle.dn_wire.specs.Cursor.{Cursor};

    ghost Value = { Cursor };

    ghost view = { λ r. record { at = r.at; rest = r.rest.now } };

    ghost invariant = { λ r. r.at + length r.rest.now < 2 ^ 64 };
}

impl<'a> Reader<'a> {
    /// A reader at the first of the bytes, which is place 0.
    pub fn new(bytes: &'a [u8]) -> Reader<'a>
        ensures { result ≡ record { at = 0; rest = bytes.now } }
    {
        Reader { at: 0, rest: bytes }
    }

    /// The place of the next byte.
    pub fn at(&self) -> u64
        ensures { result ≡ self.now.at }
    {
        self.at
    }

    /// The bytes from the place on.
    pub fn rest(&self) -> &'a [u8]
        ensures { result.now ≡ self.now.rest }
    {
        self.rest
    }

    /// The next n bytes. `Cut` where fewer are left; nothing moves then.
    pub fn take_bytes(&mut self, n: usize) -> Result<&'a [u8], FieldFault>
        ensures { Takes (λ x. x.now) result self.old self.new (bytes_at n self.old) }
    {
        if self.rest.len() < n {
            return Err(FieldFault::Cut { at: self.at });
        }
        let (front, rest) = self.rest.split_at(n);
        self.at += n as u64;
        self.rest = rest;
        Ok(front)
    }

    /// A reader of the next n bytes alone, whose places go on from here. `Cut` where fewer are
    /// left; nothing moves then.
    pub fn take_inner(&mut self, n: usize) -> Result<Reader<'a>, FieldFault>
        ensures { Takes (λ x. x) result self.old self.new (inner_at n self.old) }
    {
        let at = self.at;
        let rest = self.take_bytes(n)?;
        Ok(Reader { at, rest })
    }

    /// The next byte. `Cut` where none is left; nothing moves then.
    pub fn take_u8(&mut self) -> Result<u8, FieldFault>
        ensures { Takes (λ x. x) result self.old self.new (byte_at self.old) }
    {
        let [first, rest @ ..] = self.rest else {
            return Err(FieldFault::Cut { at: self.at });
        };
        self.at += 1;
        self.rest = rest;
        Ok(*first)
    }

    /// The number that the next two bytes spell. `Cut` where fewer are left; nothing moves then.
    pub fn take_u16(&mut self) -> Result<u16, FieldFault>
        ensures { Takes (λ x. x) result self.old self.new (number_at w16 self.old) }
    {
        let [a, b, rest @ ..] = self.rest else {
            return Err(FieldFault::Cut { at: self.at });
        };
        let number = u16::from_be_bytes([*a, *b]);
        self.at += 2;
        self.rest = rest;
        Ok(number)
    }

    /// The number that the next four bytes spell. `Cut` where fewer are left; nothing moves then.
    pub fn take_u32(&mut self) -> Result<u32, FieldFault>
        ensures { Takes (λ x. x) result self.old self.new (number_at w32 self.old) }
    {
        let front = self.take_bytes(4)?;
        Ok(u32::from_be_bytes([front[0], front[1], front[2], front[3]]))
    }

    /// The number that the next eight bytes spell. `Cut` where fewer are left; nothing moves then.
    pub fn take_u64(&mut self) -> Result<u64, FieldFault>
        ensures { Takes (λ x. x) result self.old self.new (number_at w64 self.old) }
    {
        let front = self.take_bytes(8)?;
        Ok(u64::from_be_bytes([
            front[0], front[1], front[2], front[3], front[4], front[5], front[6], front[7],
        ]))
    }

    /// The number that the next four bytes spell, which may not be above the limit. `Cut` where
    /// fewer are left, and else `Over` where it is above; nothing moves then.
    pub fn take_max(&mut self, limit: u32) -> Result<u32, FieldFault>
        ensures { Takes (λ x. x) result self.old self.new (limited_at limit self.old) }
    {
        let at = self.at;
        if self.rest.len() < 4 {
            return Err(FieldFault::Cut { at });
        }
        let (front, rest) = self.rest.split_at(4);
        let number = u32::from_be_bytes([front[0], front[1], front[2], front[3]]);
        if limit < number {
            return Err(FieldFault::Over { at, limit });
        }
        self.at = at + 4;
        self.rest = rest;
        Ok(number)
    }
}
