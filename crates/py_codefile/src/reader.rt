//! A file that is read from left to right.
ghost use Rattle.std.specs.Prelude.{◌≡◌, ◌==◌, length, IfOk};
ghost use Rattle.std.specs.Int.{w16, w32, w128};
ghost use Rattle.py_codefile.specs.Places.{Gives};
ghost use Rattle.py_codefile.specs.Reading.{block_at, byte_at, number_at, signed_at, text_at};

use crate::error::ReadCodeError;
use py_base::Text;
use std::alloc::Global;
use std::marker::Model;

/// A file that is read from left to right. Contracts see what is left of it, and at which offset that begins, in
/// bytes from 0. Each call reads one field. Its error is the first one in that field, and after it the reader stands
/// somewhere in the bad field.
#[derive(Drop)]
pub struct Reader<'a> {
    rest: &'a [u8],
    at: u64,
}

impl<'a> Model for Reader<'a> {
    ghost use Rattle.std.specs.Prelude.{◌+◌, ◌<◌, ◌^◌, length};
    ghost use Rattle.py_codefile.specs.Places.{Place, place_code};

    ghost Value = { Place };

    ghost coded = { place_code };

    ghost view = { λ r. record { at = r.at; bytes = r.rest.now } };

    ghost invariant = { λ r. r.at + length r.rest.now < 2 ^ 64 };
}

impl<'a> Reader<'a> {
    /// A reader at the start of a file.
    pub fn new(bytes: &'a [u8]) -> Reader<'a>
        ensures { result ≡ record { at = 0; bytes = bytes.now } }
    {
        Reader { rest: bytes, at: 0 }
    }

    /// The offset at which the next field begins.
    pub fn at(&self) -> u64
        ensures { result ≡ self.now.at }
    {
        self.at
    }

    /// Whether no byte is left.
    pub fn is_at_end(&self) -> bool
        ensures { result ≡ length self.now.bytes == 0 }
    {
        self.rest.is_empty()
    }

    /// A field of `count` bytes.
    ///
    /// # Errors
    /// `Truncated` where the bytes end within it, or what is wrong with it, at the offset of the first byte of the
    /// field; there may be no memory.
    #[tactic(auto, unfolding(crate::specs::Reading::block_at))]
    pub fn block(&mut self, count: usize) -> Result<&'a [u8], ReadCodeError>
        ensures block { Gives (λ block. (block.now, self.new)) result (block_at count self.old) }
        ensures length { IfOk result (λ block. length block.now ≡ count) }
    {
        if self.rest.len() < count {
            return Err(ReadCodeError::Truncated { at: self.at });
        }
        let (block, rest) = self.rest.split_at(count);
        self.rest = rest;
        self.at += count as u64;
        Ok(block)
    }

    /// A byte.
    ///
    /// # Errors
    /// `Truncated` where the bytes end within it, or what is wrong with it, at the offset of the first byte of the
    /// field; there may be no memory.
    #[tactic(auto, unfolding(crate::specs::Reading::byte_at))]
    pub fn byte(&mut self) -> Result<u8, ReadCodeError>
        ensures { Gives (λ byte. (byte, self.new)) result (byte_at self.old) }
    {
        let Some((byte, rest)) = self.rest.split_first() else {
            return Err(ReadCodeError::Truncated { at: self.at });
        };
        self.rest = rest;
        self.at += 1;
        Ok(*byte)
    }

    /// A number of two bytes.
    ///
    /// # Errors
    /// `Truncated` where the bytes end within it, or what is wrong with it, at the offset of the first byte of the
    /// field; there may be no memory.
    #[tactic(auto, unfolding(crate::specs::Reading::number_at))]
    pub fn u16(&mut self) -> Result<u16, ReadCodeError>
        ensures { Gives (λ n. (n, self.new)) result (number_at w16 self.old) }
    {
        let bytes = self.block(2)?;
        Ok(u16::from_be_bytes([bytes[0], bytes[1]]))
    }

    /// A number of four bytes.
    ///
    /// # Errors
    /// `Truncated` where the bytes end within it, or what is wrong with it, at the offset of the first byte of the
    /// field; there may be no memory.
    #[tactic(auto, unfolding(crate::specs::Reading::number_at))]
    pub fn u32(&mut self) -> Result<u32, ReadCodeError>
        ensures { Gives (λ n. (n, self.new)) result (number_at w32 self.old) }
    {
        let bytes = self.block(4)?;
        Ok(u32::from_be_bytes([bytes[0], bytes[1], bytes[2], bytes[3]]))
    }

    /// A number with a sign, of four bytes.
    ///
    /// # Errors
    /// `Truncated` where the bytes end within it, or what is wrong with it, at the offset of the first byte of the
    /// field; there may be no memory.
    #[tactic(auto, unfolding(crate::specs::Reading::signed_at))]
    pub fn i32(&mut self) -> Result<i32, ReadCodeError>
        ensures { Gives (λ z. (z, self.new)) result (signed_at w32 self.old) }
    {
        Ok(self.u32()?.cast_signed())
    }

    /// A number with a sign, of 16 bytes.
    ///
    /// # Errors
    /// `Truncated` where the bytes end within it, or what is wrong with it, at the offset of the first byte of the
    /// field; there may be no memory.
    #[tactic(auto, unfolding(crate::specs::Reading::signed_at, crate::specs::Reading::number_at))]
    pub fn i128(&mut self) -> Result<i128, ReadCodeError>
        ensures { Gives (λ z. (z, self.new)) result (signed_at w128 self.old) }
    {
        let bytes = self.block(16)?;
        Ok(i128::from_be_bytes([
            bytes[0], bytes[1], bytes[2], bytes[3], bytes[4], bytes[5], bytes[6], bytes[7],
            bytes[8], bytes[9], bytes[10], bytes[11], bytes[12], bytes[13], bytes[14], bytes[15],
        ]))
    }

    /// A text: its length in bytes, and then the bytes.
    ///
    /// # Errors
    /// `Truncated` where the bytes end within it, or what is wrong with it, at the offset of the first byte of the
    /// field; there may be no memory.
    #[tactic(auto, unfolding(crate::specs::Reading::text_at))]
    pub fn text(&mut self, alloc: Global) -> Result<Text, ReadCodeError>
        ensures { Gives (λ text. (text, self.new)) result (text_at self.old) }
    {
        let length = self.u32()? as usize;
        let at = self.at();
        let bytes = self.block(length)?;
        match str::from_utf8(bytes) {
            Ok(text) => Ok(Text::from_string(String::from_str(alloc, text)?)),
            Err(_) => Err(ReadCodeError::BadText { at }),
        }
    }
}
