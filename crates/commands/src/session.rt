// The frame that a script works on, the carrier that it plays with, and its commands.
ghost use Rattle.std.specs.Prelude.{◌≡◌, None};
ghost use Rattle.commands.specs.Session.{held, carried, Ran};

mod carrying;
mod frames;

use crate::answer::Answer;
use crate::command::Command;
use crate::trouble::Trouble;
use carrier::harming::Harming;
use carrier::straight::Straight;
use frame::frame::Frame;
use std::alloc::Global;

// No model: by one, "as it was" would say no more of the carrier than what waits and what is planned.
#[derive(Drop)]
pub struct Session {
    frame: Option<Frame>,
    carrier: Option<Harming<Straight>>,
}

impl Session {
    pub fn new() -> Session
        ensures frame { held result ≡ None }
        ensures carrier { carried result ≡ None }
    {
        Session {
            frame: None,
            carrier: None,
        }
    }

    pub fn run(&mut self, heap: Global, command: Command) -> Result<Answer, Trouble>
        ensures { Ran command self.old result self.new }
    {
        // A match, not a table of closures: each command holds what its own step takes.
        match command {
            Command::Seal { id, load } => Ok(self.seal(id, &load)),
            Command::Reply(reply) => Ok(self.reply(reply)),
            Command::Raw { bytes, marks } => self.raw(bytes.as_slice(), marks.as_slice()),
            Command::Flip { place, mask } => self.flip(place, mask),
            Command::Mark { character, mark } => self.mark(character, mark),
            Command::Read => self.read(),
            Command::Unpack { size } => self.unpack(heap, size),
            Command::Show => self.show(),
            Command::Carrier(kind) => self.make_carrier(heap, kind),
            Command::Plan(harm) => self.plan(harm),
            Command::Put => self.put(),
            Command::Take => self.take(),
        }
    }
}
