// Why a line is no command.
use std::alloc::AllocError;
use std::fmt;

#[derive(Clone, Copy)]
pub(crate) struct Misread<'a> {
    // the first word of the line, and the last one that was read
    pub(crate) command: &'a str,
    pub(crate) word: &'a str,
    pub(crate) why: Why,
}

#[derive(Clone, Copy)]
pub(crate) enum Why {
    NoCommand,
    // the line ends before this part
    Missing(Part),
    Wrong { part: Part, wanted: Wanted },
    // the line goes on
    Extra,
    Memory,
}

// What a word stands for.
#[derive(Clone, Copy)]
pub(crate) enum Part {
    Id,
    Length,
    Fill,
    PacketBytes,
    FrameBytes,
    Marks,
    Kind,
    Place,
    Mask,
    Character,
    Mark,
    Size,
    Carrier,
    Harm,
}

// What a word should have been.
#[derive(Clone, Copy)]
pub(crate) enum Wanted {
    Number { most: usize },
    Length,
    Byte,
    Bytes,
    Marks,
    ReplyKind,
    CarrierKind,
    Harm,
}

impl From<AllocError> for Why {
    fn from(_error: AllocError) -> Why {
        Why::Memory
    }
}

impl fmt::Display for Part {
    fn fmt<W: fmt::Write>(&self, f: &mut fmt::Formatter<W>) -> fmt::Result {
        f.write_str(match self {
            Part::Id => "ID",
            Part::Length => "length",
            Part::Fill => "fill",
            Part::PacketBytes => "packet bytes",
            Part::FrameBytes => "frame bytes",
            Part::Marks => "marks",
            Part::Kind => "kind",
            Part::Place => "place",
            Part::Mask => "mask",
            Part::Character => "character",
            Part::Mark => "mark",
            Part::Size => "size",
            Part::Carrier => "carrier",
            Part::Harm => "harm",
        })
    }
}

impl fmt::Display for Wanted {
    fn fmt<W: fmt::Write>(&self, f: &mut fmt::Formatter<W>) -> fmt::Result {
        match self {
            Wanted::Number { most } => write!(f, "0 to {most}"),
            Wanted::Length => f.write_str("a number of bytes or the word hex"),
            Wanted::Byte => f.write_str("two hex digits"),
            Wanted::Bytes => f.write_str("pairs of hex digits"),
            Wanted::Marks => f.write_str("digits 0 to 3"),
            Wanted::ReplyKind => f.write_str("ack or nak"),
            Wanted::CarrierKind => f.write_str("straight"),
            Wanted::Harm => f.write_str("pass, drop or flip"),
        }
    }
}

impl fmt::Display for Misread<'_> {
    fn fmt<W: fmt::Write>(&self, f: &mut fmt::Formatter<W>) -> fmt::Result {
        let Misread { command, word, why } = self;
        match why {
            Why::NoCommand => write!(f, "{command:?} is no command"),
            Why::Missing(part) => write!(f, "{command} lacks its {part}"),
            Why::Wrong { part, wanted } => write!(f, "{part} must be {wanted}, not {word:?}"),
            Why::Extra => write!(f, "{command} takes no more words, but here is {word:?}"),
            Why::Memory => f.write_str("there is no memory for it"),
        }
    }
}
