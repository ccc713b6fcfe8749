//! Lines that give code.

ghost use Rattle.std.specs.Prelude.{◌≡◌};

use crate::blocks::Block;
use grain_fault::Position;
use std::marker::Model;

/// A line that gives code: an instruction's, or one of a single byte. It has the line's number,
/// from 1 on, the address of its first byte, how many bytes it gives, its block, its position in the
/// script if it has one, and the line's characters.
#[derive(Drop)]
pub struct Place<'a> {
    line: usize,
    address: usize,
    width: usize,
    block: Block,
    position: Option<Position>,
    text: &'a [char],
}

impl<'a> Model for Place<'a> {
    ghost use Rattle.grain_addresses.specs.Places.{Place};

    ghost Value = { Place };

    ghost view = { λ p. record {
      line = p.line;
      address = p.address;
      width = p.width;
      block = p.block;
      position = p.position;
      text = p.text.now;
    } };
}

impl<'a> Place<'a> {
    /// The line with this number, whose first byte is at the address.
    pub fn new(
        line: usize,
        address: usize,
        width: usize,
        block: Block,
        position: Option<Position>,
        text: &'a [char],
    ) -> Place<'a>
        ensures { result ≡ record {
          line = line;
          address = address;
          width = width;
          block = block;
          position = position;
          text = text.now;
        } }
    {
        Place {
            line,
            address,
            width,
            block,
            position,
            text,
        }
    }

    /// The line's number, from 1 on.
    pub fn line(&self) -> usize
        ensures { result ≡ self.now.line }
    {
        self.line
    }

    /// The address of the first byte.
    pub fn address(&self) -> usize
        ensures { result ≡ self.now.address }
    {
        self.address
    }

    /// How many bytes the line gives.
    pub fn width(&self) -> usize
        ensures { result ≡ self.now.width }
    {
        self.width
    }

    /// The block in which the line stands.
    pub fn block(&self) -> Block
        ensures { result ≡ self.now.block }
    {
        self.block
    }

    /// The position in the script, if the line has one.
    pub fn position(&self) -> Option<Position>
        ensures { result ≡ self.now.position }
    {
        self.position
    }

    /// The line's characters.
    pub fn text(&self) -> &'a [char]
        ensures { result.now ≡ self.now.text }
    {
        self.text
    }
}
