// What a good frame holds.
ghost use Rattle.std.specs.Prelude.{Some};
ghost use Rattle.terms.specs.Text.{content_text};

use crate::reply::Reply;
use std::fmt;

#[derive(Clone, Copy, PartialEq, Eq, Debug)]
pub enum Content {
    // a packet of `size` bytes under an ID
    Packet { id: u8, size: usize },
    Reply(Reply),
}

impl fmt::Display for Content {
    ghost output = { λ c. Some (content_text c) };

    fn fmt<W: fmt::Write>(&self, f: &mut fmt::Formatter<W>) -> fmt::Result {
        match self {
            Content::Packet { id, size } => write!(f, "packet, ID {id}, {size} bytes"),
            Content::Reply(reply) => write!(f, "{reply}"),
        }
    }
}
