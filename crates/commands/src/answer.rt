// What a command is answered by.
use crate::characters::Characters;
use crate::command::CarrierKind;
use crate::hex::Hex;
use frame::frame::Frame;
use std::fmt;
use terms::content::Content;
use terms::fault::Refusal;
use terms::mark::Mark;
use terms::reply::Reply;

#[derive(Drop)]
pub enum Answer {
    Sealed { id: u8, size: usize },
    Made(Reply),
    Framed { groups: usize },
    Flipped { place: usize, mask: u8 },
    Marked { character: usize, mark: Mark },
    Outside,
    Good(Content),
    Unpacked { size: usize, buffer: Vec<u8> },
    NoPacket,
    Characters(Frame),
    Carrier(CarrierKind),
    Planned { harms: usize },
    Put,
    Taken,
    Refused(Refusal),
}

impl fmt::Display for Answer {
    fn fmt<W: fmt::Write>(&self, f: &mut fmt::Formatter<W>) -> fmt::Result {
        match self {
            Answer::Sealed { id, size } => write!(f, "sealed, ID {id}, {size} bytes"),
            Answer::Made(reply) => write!(f, "reply {reply}"),
            Answer::Framed { groups: 1 } => f.write_str("frame of 1 group"),
            Answer::Framed { groups } => write!(f, "frame of {groups} groups"),
            Answer::Flipped { place, mask } => write!(f, "flipped place {place} by 0x{mask:02x}"),
            Answer::Marked { character, mark } => write!(
                f,
                "character {character} has mark {mark}"
            ),
            Answer::Outside => f.write_str("outside the frame"),
            Answer::Good(content) => write!(f, "good {content}"),
            Answer::Unpacked { size, buffer } => write!(
                f,
                "packet of {size} bytes\n{}",
                Hex(buffer)
            ),
            Answer::NoPacket => f.write_str("not a packet"),
            Answer::Characters(frame) => write!(f, "{}", Characters(frame)),
            Answer::Carrier(kind) => write!(f, "carrier {kind}"),
            Answer::Planned { harms } => write!(f, "plan holds {harms}"),
            Answer::Put => f.write_str("put"),
            Answer::Taken => f.write_str("taken"),
            Answer::Refused(refusal) => write!(f, "refused {refusal}"),
        }
    }
}
