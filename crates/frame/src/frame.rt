// A frame, good or broken: one to five groups of eight characters.
mod form;
mod link;
mod parts;
mod protocol;
mod read;

use std::marker::Model;
use terms::mark::Mark;

// Fixed memory, as a device has it, and copied as it is: room for five groups, blank behind the frame's own.
// Bytes apart from marks, since `bytes` and `marks` lend each as one slice.
#[derive(Clone, Copy)]
pub struct Frame {
    groups: usize,
    bytes: [u8; 640],
    marks: [Mark; 40],
}

// Clauses see the bytes and the marks of a frame.
impl Model for Frame {
    ghost use Rattle.std.specs.Prelude.{◌/◌, length, refl};
    ghost use Rattle.frame.specs.Frame.{FrameM};
    ghost use Rattle.frame.specs.Room.{front, in_room, FrameRoom};
    ghost use Rattle.frame.specs.RoomBack.{frame_back};
    ghost use Rattle.terms.specs.declared.mark.Mark.TheVariants.{Zero};

    ghost Value = { FrameM };

    ghost view = { λ f. front f.groups f.bytes f.marks };

    ghost invariant = { λ f. FrameRoom f.groups f.bytes f.marks };

    ghost inverse = { λ f. record { groups = length f.bytes / 128; bytes = in_room 640 0 f.bytes; marks = in_room 40 Zero f.marks } };

    ghost inverse_ok = { λ a h. let e = frame_back _ _ _ h in Prim.rw (e.0, e.1, e.2) refl };
}

// What a frame's first character says that it is.
#[derive(Clone, Copy, PartialEq, Eq, Debug)]
pub enum Kind {
    Protocol,
    Link,
}
