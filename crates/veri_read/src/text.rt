ghost use Rattle.std.specs.Prelude.{◌≡◌, ◌<◌, ◌^◌, length};
ghost use Rattle.veri_read.specs.Tokens.{items};
ghost use Rattle.veri_read.specs.Faults.{said_by};
ghost use Rattle.veri_read.specs.Held.{said_of, Took, IsPiece};

use crate::error::VeriError;
use crate::reader::Reader;
use crate::symbol::Symbol;
use crate::token::{Token, front, is_blank};

impl<'a> Reader<'a> {
    /// Takes in the blank or the token at an offset in bytes, and answers the offset behind it.
    fn read_piece(&mut self, bytes: &'a [u8], at: usize) -> Result<usize, VeriError>
        requires within { at < length bytes.now }
        requires small { length bytes.now < 2 ^ 32 }
        ensures { IsPiece at bytes.now (said_of self.old) (said_of self.new) result }
    {
        let (_, text) = bytes.split_at(at);
        let first = bytes[at];
        if is_blank(first) {
            return Ok(at + 1);
        }
        let (token, length) = front(at as u32, first, text);
        match self.step(token) {
            Ok(()) => Ok(at + length),
            Err(fault) => Err(fault),
        }
    }

    /// Takes a whole text in, up to its first fault, which is the refusal; `Memory` for want of memory. The text
    /// has fewer than 2^32 bytes. Time is linear in the bytes.
    pub fn read_text(&mut self, bytes: &'a [u8]) -> Result<(), VeriError>
        requires { length bytes.now < 2 ^ 32 }
        ensures { Took (said_by (items bytes.now) (said_of self.old)) (said_of self.new) result }
    {
        let mut at = 0;
        while at < bytes.len() {
            match self.read_piece(bytes, at) {
                Ok(next) => at = next,
                Err(fault) => return Err(fault),
            }
        }
        let end = Token {
            symbol: Symbol::Nothing,
            spelled: "",
            at: bytes.len() as u32,
        };
        self.step(end)
    }
}
