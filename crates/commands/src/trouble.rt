// Why a command cannot be run.
ghost use Rattle.std.specs.Prelude.{◌≡◌};
ghost use Rattle.commands.specs.declared.trouble.Trouble.TheVariants.{Memory};

use std::alloc::AllocError;
use std::fmt;

#[derive(Clone, Copy)]
pub enum Trouble {
    NoFrame,
    NoCarrier,
    // a raw frame of so many bytes
    Bytes { found: usize },
    // a raw frame of so many marks
    Marks { found: usize, wanted: usize },
    Memory,
}

impl From<AllocError> for Trouble {
    ghost from_gives = { λ _ r. r ≡ Memory };

    fn from(_error: AllocError) -> Trouble {
        Self::Memory
    }
}

impl fmt::Display for Trouble {
    fn fmt<W: fmt::Write>(&self, f: &mut fmt::Formatter<W>) -> fmt::Result {
        match self {
            Trouble::NoFrame => f.write_str(
                "there is no frame yet: make one by seal, reply or raw",
            ),
            Trouble::NoCarrier => f.write_str(
                "there is no carrier yet: make one by carrier straight",
            ),
            Trouble::Bytes { found } => {
                write!(
                    f,
                    "frame bytes must be 1 to 5 groups of 128, but their number is {found}"
                )
            }
            Trouble::Marks { found, wanted } => {
                write!(
                    f,
                    "marks must be one to every sixteen bytes, so {wanted}, but their number is {found}"
                )
            }
            Trouble::Memory => f.write_str("there is no memory for it"),
        }
    }
}
