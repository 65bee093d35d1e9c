// The two-bit mark of a character.
ghost use Rattle.std.specs.Prelude.{◌≡◌, Some, decimal};
ghost use Rattle.std.specs.Option.{ok_or};
ghost use Rattle.terms.specs.Mark.{mark_number, mark_of};

use crate::unknown::Unknown;
use std::fmt;

// 1 is data and 2 control; 0 and 3 are sync errors.
#[derive(Clone, Copy, PartialEq, Eq, Debug)]
pub enum Mark {
    Zero,
    Data,
    Control,
    Three,
}

impl From<Mark> for u8 {
    ghost from_gives = { λ m r. r ≡ mark_number m };

    fn from(mark: Mark) -> u8 {
        match mark {
            Mark::Zero => 0,
            Mark::Data => 1,
            Mark::Control => 2,
            Mark::Three => 3,
        }
    }
}

impl TryFrom<u8> for Mark {
    type Error = Unknown;

    ghost try_from_gives = { λ n r. r ≡ ok_or (mark_of n) (record { 0 = n }) };

    fn try_from(number: u8) -> Result<Mark, Unknown> {
        match number {
            0 => Ok(Mark::Zero),
            1 => Ok(Mark::Data),
            2 => Ok(Mark::Control),
            3 => Ok(Mark::Three),
            _ => Err(Unknown(number)),
        }
    }
}

impl fmt::Display for Mark {
    ghost output = { λ m. Some (decimal (mark_number m)) };

    fn fmt<W: fmt::Write>(&self, f: &mut fmt::Formatter<W>) -> fmt::Result {
        write!(f, "{}", u8::from(*self))
    }
}
