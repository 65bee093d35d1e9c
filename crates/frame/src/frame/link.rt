// The link frame: a reply.
ghost use Rattle.std.specs.Prelude.{◌≡◌, map, Ok};
ghost use Rattle.std.specs.List.{range_with_len};
ghost use Rattle.frame.specs.Form.{link_allows, reply_check, link_byte, reply_frame};
ghost use Rattle.frame.specs.Reading.{reading, reading_as};
ghost use Rattle.frame.specs.Word.{ReadsPart};
ghost use Rattle.terms.specs.declared.content.Content.TheVariants.{Reply as ReplyContent};
ghost use Rattle.frame.specs.declared.frame.Kind.TheVariants.{Link as LinkKind};

use crate::frame::form::END;
use crate::frame::{Frame, Kind};
use crate::room::in_room;
use crc::link::link_check;
use std::array;
use terms::content::Content;
use terms::fault::FrameFault;
use terms::reply::{Reply, ReplyKind};

pub(super) const LEAD: u8 = 0x5C;

const TAG: u8 = 0xA5;

// Whether a byte may stand at a place of a link frame.
#[tactic(auto, unfolding(crate::specs::Form::link_allows))]
pub(super) fn allows_byte(place: usize, byte: u8) -> bool
    ensures { result ≡ link_allows place byte }
{
    match place {
        0..=7 => byte == LEAD,
        8 => byte == TAG,
        9 => ReplyKind::try_from(byte).is_ok(),
        10 => true,
        11..=13 => byte == 0,
        14..=15 => true,
        16..=23 => byte == END,
        _ => byte == 0,
    }
}

#[tactic(auto, unfolding(crate::specs::Form::reply_check))]
fn reply_check(reply: Reply) -> u16
    ensures { result ≡ reply_check reply }
{
    link_check(&[TAG, u8::from(reply.kind), reply.id, 0, 0, 0])
}

// What the eight bytes of a reply say.
#[derive(Clone, Copy)]
struct Word {
    reply: Reply,
    check: u16,
}

impl Word {
    // The byte at a place of the link frame of a reply with its own check.
    #[tactic(auto, unfolding(crate::specs::Form::link_byte))]
    fn byte(self, place: usize) -> u8
        requires { self.check ≡ reply_check self.reply }
        ensures { result ≡ link_byte self.reply place }
    {
        let [low, high] = self.check.to_le_bytes();
        match place {
            0..=7 => LEAD,
            8 => TAG,
            9 => u8::from(self.reply.kind),
            10 => self.reply.id,
            11..=13 => 0,
            14 => low,
            15 => high,
            16..=23 => END,
            _ => 0,
        }
    }
}

fn reply_bytes(reply: Reply) -> [u8; 128]
    ensures { result ≡ map (link_byte reply) (range_with_len 0 128) }
{
    let check = reply_check(reply);
    let word = Word { reply, check };
    array::from_fn(|place| word.byte(place))
}

fn reply_word(part: &[u8]) -> Option<Word>
    ensures { ReadsPart part.now result }
{
    match part {
        [TAG, kind, id, 0, 0, 0, low, high] => Some(Word {
            reply: Reply {
                kind: ReplyKind::try_from(*kind).ok()?,
                id: *id,
            },
            check: u16::from_le_bytes([*low, *high]),
        }),
        _ => None,
    }
}

impl Frame {
    // The frame of a reply. Reading it gives that reply.
    pub fn reply(reply: Reply) -> Frame
        ensures made { result ≡ reply_frame reply }
        ensures reads { reading result ≡ Ok (ReplyContent reply) }
    {
        Frame {
            groups: 1,
            bytes: in_room(0, &reply_bytes(reply)),
            marks: Kind::Link.marks(8),
        }
    }

    pub(super) fn read_link(&self) -> Result<Content, FrameFault>
        ensures { result ≡ reading_as LinkKind self.now }
    {
        if self.groups > 1 {
            return Err(FrameFault::Form(128));
        }
        self.check_form(Kind::Link)?;
        let Some(word) = reply_word(&self.bytes[8..16]) else {
            unreachable!()
        };
        if word.check == reply_check(word.reply) {
            Ok(Content::Reply(word.reply))
        } else {
            Err(FrameFault::Check(14))
        }
    }
}
