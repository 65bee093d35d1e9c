// The check of one unit of a frame, as it runs.
ghost use Rattle.std.specs.Prelude.{◌≡◌, replicate};
ghost use Rattle.crc.specs.Check.{run as run_of, state_of, OneByteShows};

use crate::polynomial::UNIT;

// Eight bits of state; each part of the unit is lent to it in turn.
#[derive(Clone, Copy)]
pub struct UnitCheck {
    state: u8,
}

impl UnitCheck {
    pub fn new() -> UnitCheck
        ensures { state_of result ≡ 0 }
    {
        UnitCheck { state: 0 }
    }

    pub fn state(&self) -> u8
        ensures { result ≡ state_of self.now }
    {
        self.state
    }

    // No other byte in the place of one of the part's leaves the same state.
    pub fn feed(&mut self, part: &[u8])
        ensures after { state_of self.new ≡ run_of 8 0xA1 (state_of self.old) part.now }
        ensures shows { OneByteShows 8 0xA1 (state_of self.old) part.now }
    {
        *self = UnitCheck {
            state: UNIT.run(u16::from(self.state), part) as u8,
        };
    }

    pub fn feed_zeros(&mut self, count: usize)
        ensures { state_of self.new ≡ run_of 8 0xA1 (state_of self.old) (replicate count 0) }
    {
        // As often as asked, with no item: a chain would be no plainer.
        for _ in 0..count {
            self.feed(&[0]);
        }
    }
}
