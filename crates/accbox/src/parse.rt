// Reads a line into a command.
use crate::misread::{Misread, Part, Wanted, Why};
use crate::words::{Words, decimal};
use carrier::harm::Harm;
use commands::command::{CarrierKind, Command, Load};
use std::alloc::Global;
use terms::reply::{Reply, ReplyKind};

const LARGEST_BUFFER: usize = 1048576;

fn load(words: &mut Words) -> Result<Load, Why> {
    let part = Part::Length;
    let wanted = Wanted::Length;
    // Not by `read`: other words follow each answer.
    let word = words.word(part)?;
    if word == "hex" {
        return Ok(Load::Bytes(words.bytes(Part::PacketBytes)?));
    }
    Ok(Load::Filled {
        size: decimal(word).ok_or(Why::Wrong { part, wanted })?,
        fill: words.byte(Part::Fill)?,
    })
}

fn reply_kind(words: &mut Words) -> Result<ReplyKind, Why> {
    words.read(Part::Kind, Wanted::ReplyKind, |word| match word {
        "ack" => Some(ReplyKind::Ack),
        "nak" => Some(ReplyKind::Nak),
        _ => None,
    })
}

fn carrier_kind(words: &mut Words) -> Result<CarrierKind, Why> {
    // Not by `read`: the kind is what is missing, and the carrier what is wrong.
    match words.word(Part::Kind)? {
        "straight" => Ok(CarrierKind::Straight),
        _ => Err(Why::Wrong {
            part: Part::Carrier,
            wanted: Wanted::CarrierKind,
        }),
    }
}

fn harm(words: &mut Words) -> Result<Harm, Why> {
    let part = Part::Harm;
    // Not by `read`: more words follow the one that is matched.
    match words.word(part)? {
        "pass" => Ok(Harm::Pass),
        "drop" => Ok(Harm::Drop),
        "flip" => Ok(Harm::Flip {
            place: words.number(Part::Place, usize::MAX)?,
            mask: words.byte(Part::Mask)?,
        }),
        _ => Err(Why::Wrong {
            part,
            wanted: Wanted::Harm,
        }),
    }
}

fn seal(words: &mut Words) -> Result<Command, Why> {
    Ok(Command::Seal {
        id: words.id()?,
        load: load(words)?,
    })
}

fn reply(words: &mut Words) -> Result<Command, Why> {
    Ok(Command::Reply(Reply {
        kind: reply_kind(words)?,
        id: words.id()?,
    }))
}

fn raw(words: &mut Words) -> Result<Command, Why> {
    Ok(Command::Raw {
        bytes: words.bytes(Part::FrameBytes)?,
        marks: words.marks(Part::Marks)?,
    })
}

fn flip(words: &mut Words) -> Result<Command, Why> {
    Ok(Command::Flip {
        place: words.number(Part::Place, usize::MAX)?,
        mask: words.byte(Part::Mask)?,
    })
}

fn mark(words: &mut Words) -> Result<Command, Why> {
    Ok(Command::Mark {
        character: words.number(Part::Character, usize::MAX)?,
        mark: words.mark(Part::Mark)?,
    })
}

fn unpack(words: &mut Words) -> Result<Command, Why> {
    Ok(Command::Unpack {
        size: words.number(Part::Size, LARGEST_BUFFER)?,
    })
}

// The command that the first word names.
fn named(words: &mut Words) -> Result<Command, Why> {
    // A match, not a table of closures: a word and what it reads stand side by side.
    match words.command() {
        "seal" => seal(words),
        "reply" => reply(words),
        "raw" => raw(words),
        "flip" => flip(words),
        "mark" => mark(words),
        "read" => Ok(Command::Read),
        "unpack" => unpack(words),
        "show" => Ok(Command::Show),
        "carrier" => carrier_kind(words).map(Command::Carrier),
        "plan" => harm(words).map(Command::Plan),
        "put" => Ok(Command::Put),
        "take" => Ok(Command::Take),
        _ => Err(Why::NoCommand),
    }
}

// The same, where no word is left behind it.
fn whole(words: &mut Words) -> Result<Command, Why> {
    let command = named(words)?;
    words.end()?;
    Ok(command)
}

// The command of a line; none if the line is blank.
pub(crate) fn command<'a>(heap: Global, line: &'a str) -> Result<Option<Command>, Misread<'a>> {
    let Some(mut words) = Words::of_line(heap, line) else {
        return Ok(None);
    };
    whole(&mut words)
        .map(Some)
        .map_err(|why| words.misread(why))
}
