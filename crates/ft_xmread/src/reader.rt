//! The cursor by which a file is read.

ghost use Rattle.std.specs.Prelude.{◌≡◌, ◌≢◌, ◌+◌, ◌<◌, ◌≤◌, ◌^◌, length, IfOk, Err};
ghost use Rattle.ft_xmread.specs.Reader.{FilePlace, FileReads, field_at, number_at, count_at, piece_at};

use crate::fault::XmFault;
use byteorder::{ByteOrder, LittleEndian};
use std::marker::Model;

/// Reads the fields of a file from left to right. After a fault its place is open.
#[derive(Drop)]
pub struct Reader<'a> {
    at: u64,
    left: &'a [u8],
}

impl<'a> Model for Reader<'a> {
    ghost use Rattle.std.specs.Prelude.{◌+◌, ◌<◌, ◌^◌, length};
    ghost use Rattle.ft_xmread.specs.Reader.{FilePlace};

    ghost Value = { FilePlace };

    ghost view = { λ r. record { at = r.at; left = r.left.now } };

    ghost invariant = { λ r. r.at + length r.left.now < 2 ^ 63 };
}

impl<'a> Reader<'a> {
    /// A reader at the front of a file.
    pub fn new(file: &'a [u8]) -> Reader<'a>
        ensures { result ≡ record { at = 0; left = file.now } }
    {
        Reader { at: 0, left: file }
    }

    /// The offset of the next byte in the file.
    pub fn place(&self) -> u64
        ensures at { result ≡ self.now.at }
        ensures within { result < 2 ^ 63 }
    {
        self.at
    }

    /// The number of bytes that are left.
    pub fn remaining(&self) -> usize
        ensures { result ≡ length self.now.left }
    {
        self.left.len()
    }

    /// The bytes that are left.
    pub fn rest(&self) -> &'a [u8]
        ensures { result.now ≡ self.now.left }
    {
        self.left
    }

    /// The next `need` bytes; `Short` where fewer are left.
    #[tactic(auto, unfolding(crate::specs::Reader::field_at))]
    pub fn field(&mut self, need: u32) -> Result<&'a [u8], XmFault>
        ensures value { FileReads (λ x. x.now) result self.new (field_at need self.old) }
        ensures len { IfOk result (λ x. length x.now ≡ need) }
        ensures memory { result ≢ Err XmFault.NoMemory }
    {
        if self.left.len() < need as usize {
            return Err(XmFault::Short { at: self.at, need });
        }
        let (front, rest) = self.left.split_at(need as usize);
        self.left = rest;
        self.at += u64::from(need);
        Ok(front)
    }

    /// A reader of the next `need` bytes alone; `Short` where fewer are left.
    #[tactic(auto, unfolding(crate::specs::Reader::piece_at, crate::specs::Reader::field_at))]
    pub fn piece(&mut self, need: u32) -> Result<Reader<'a>, XmFault>
        ensures { FileReads (λ x. x) result self.new (piece_at need self.old) }
    {
        let at = self.at;
        let left = self.field(need)?;
        Ok(Reader { at, left })
    }

    /// The next bytes, as many as the array has.
    pub fn array<const N: usize>(&mut self) -> Result<[u8; N], XmFault>
        requires { N < 2 ^ 32 }
        ensures { FileReads (λ x. x) result self.new (field_at N self.old) }
    {
        let front = self.field(N as u32)?;
        let mut array = [0; N];
        array.copy_from_slice(front);
        Ok(array)
    }

    /// The next byte.
    #[tactic(auto, unfolding(crate::specs::Reader::number_at))]
    pub fn byte(&mut self) -> Result<u8, XmFault>
        ensures { FileReads (λ x. x) result self.new (number_at 1 self.old) }
    {
        let front = self.field(1)?;
        Ok(front[0])
    }

    /// The next number of two bytes, the low one first.
    #[tactic(auto, unfolding(crate::specs::Reader::number_at))]
    pub fn u16(&mut self) -> Result<u16, XmFault>
        ensures { FileReads (λ x. x) result self.new (number_at 2 self.old) }
    {
        let front = self.field(2)?;
        Ok(LittleEndian::read_u16(front))
    }

    /// The next number of four bytes, the low one first.
    #[tactic(auto, unfolding(crate::specs::Reader::number_at))]
    pub fn u32(&mut self) -> Result<u32, XmFault>
        ensures { FileReads (λ x. x) result self.new (number_at 4 self.old) }
    {
        let front = self.field(4)?;
        Ok(LittleEndian::read_u32(front))
    }

    /// The next number of two bytes; `Count` where it is over `most`.
    pub fn count(&mut self, most: u16) -> Result<u16, XmFault>
        ensures value { FileReads (λ x. x) result self.new (count_at most self.old) }
        ensures limit { IfOk result (λ x. x ≤ most) }
    {
        let at = self.at;
        let found = self.u16()?;
        if found > most {
            return Err(XmFault::Count {
                at,
                found: u32::from(found),
            });
        }
        Ok(found)
    }
}
