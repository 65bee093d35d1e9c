// A frame of any bytes and marks, and changes of one of them.
ghost use Rattle.std.specs.Prelude.{◌≡◌, ◌<◌, length, Some, None, MatchResult};
ghost use Rattle.frame.specs.Form.{kind_of};
ghost use Rattle.frame.specs.Frame.{flipped, marked, parts_fault, parted, Grouped, IsFrame};
ghost use Rattle.frame.specs.Reading.{Good, Broken};

use crate::frame::link::LEAD;
use crate::frame::{Frame, Kind};
use crate::room::{in_room, is_whole};
use terms::fault::ShapeFault;
use terms::mark::Mark;

impl Frame {
    // The frame of these bytes and marks, good or broken. They come apart from outside; a struct of the two is the frame.
    pub fn from_parts(bytes: &[u8], marks: &[Mark]) -> Result<Frame, ShapeFault>
        ensures { MatchResult result (λ f. (parts_fault (length bytes.now) (length marks.now) ≡ None) × (f ≡ parted bytes.now marks.now)) (λ e. parts_fault (length bytes.now) (length marks.now) ≡ Some e) }
    {
        if !is_whole(bytes.len()) {
            return Err(ShapeFault::Bytes);
        }
        if marks.len() != bytes.len() / 16 {
            return Err(ShapeFault::Marks);
        }
        Ok(Frame {
            groups: bytes.len() / 128,
            bytes: in_room(0, bytes),
            marks: in_room(Mark::Zero, marks),
        })
    }

    // Not by one function with `marks` and the bytes of a packet: a slice of each field is as plain. Each call on a frame says its `shape`, since clauses
    // cannot see the invariant of a model.
    pub fn bytes(&self) -> &[u8]
        ensures bytes { result.now ≡ self.now.bytes }
        ensures shape { IsFrame self.now }
    {
        &self.bytes[0..128 * self.groups]
    }

    pub fn marks(&self) -> &[Mark]
        ensures marks { result.now ≡ self.now.marks }
        ensures shape { IsFrame self.now }
    {
        &self.marks[0..8 * self.groups]
    }

    pub fn groups(&self) -> usize
        ensures { Grouped self.now result }
    {
        self.groups
    }

    pub fn kind(&self) -> Kind
        ensures kind { result ≡ kind_of self.now }
        ensures shape { IsFrame self.now }
    {
        if self.marks[0] == Mark::Control && self.bytes[0] == LEAD {
            Kind::Link
        } else {
            Kind::Protocol
        }
    }

    // Xors one byte by a mask; a place outside the frame leaves it as it is. One flipped byte always breaks a good frame.
    // Place and mask stay apart: a struct of the two would only lengthen each call.
    pub fn flip(&mut self, place: usize, mask: u8)
        ensures after { self.new ≡ flipped self.old place mask }
        ensures breaks { Good self.old → place < length self.old.bytes → 0 < mask → Broken self.new }
        ensures shape { IsFrame self.old }
    {
        if place < 128 * self.groups {
            self.bytes[place] ^= mask;
        }
    }

    // Puts another mark on a character; one outside the frame leaves it as it is. The two stay apart, as in `flip`.
    pub fn set_mark(&mut self, character: usize, mark: Mark)
        ensures after { self.new ≡ marked self.old character mark }
        ensures shape { IsFrame self.old }
    {
        if character < 8 * self.groups {
            self.marks[character] = mark;
        }
    }
}
