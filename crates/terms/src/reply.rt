// What a link frame says to the other end.
ghost use Rattle.std.specs.Prelude.{◌≡◌, Some};
ghost use Rattle.std.specs.Option.{ok_or};
ghost use Rattle.terms.specs.Reply.{kind_byte, kind_of_byte};
ghost use Rattle.terms.specs.Text.{kind_text, reply_text};

use crate::unknown::Unknown;
use std::fmt;

#[derive(Clone, Copy, PartialEq, Eq, Debug)]
pub enum ReplyKind {
    Ack,
    Nak,
}

#[derive(Clone, Copy, PartialEq, Eq, Debug)]
pub struct Reply {
    pub kind: ReplyKind,
    pub id: u8,
}

impl From<ReplyKind> for u8 {
    ghost from_gives = { λ k r. r ≡ kind_byte k };

    fn from(kind: ReplyKind) -> u8 {
        match kind {
            ReplyKind::Ack => 0x00,
            ReplyKind::Nak => 0x80,
        }
    }
}

impl TryFrom<u8> for ReplyKind {
    type Error = Unknown;

    ghost try_from_gives = { λ b r. r ≡ ok_or (kind_of_byte b) (record { 0 = b }) };

    fn try_from(byte: u8) -> Result<ReplyKind, Unknown> {
        match byte {
            0x00 => Ok(ReplyKind::Ack),
            0x80 => Ok(ReplyKind::Nak),
            _ => Err(Unknown(byte)),
        }
    }
}

impl fmt::Display for ReplyKind {
    ghost output = { λ k. Some (kind_text k) };

    fn fmt<W: fmt::Write>(&self, f: &mut fmt::Formatter<W>) -> fmt::Result {
        f.write_str(match self {
            ReplyKind::Ack => "ACK",
            ReplyKind::Nak => "NAK",
        })
    }
}

impl fmt::Display for Reply {
    ghost output = { λ r. Some (reply_text r) };

    fn fmt<W: fmt::Write>(&self, f: &mut fmt::Formatter<W>) -> fmt::Result {
        write!(f, "{}, ID {}", self.kind, self.id)
    }
}
