// The commands on the current frame.
ghost use Rattle.std.specs.Prelude.{◌≡◌, length, Some, None, MatchResult, IfSome};
ghost use Rattle.std.specs.Option.{option_map};
ghost use Rattle.frame.specs.Form.{sealed, reply_frame};
ghost use Rattle.frame.specs.Frame.{parted, parts_fault, flipped, marked, IsFrame};
ghost use Rattle.frame.specs.Reading.{reading};
ghost use Rattle.commands.specs.Session.{held, unless, on_frame, load_fault, load_bytes, seal_answer, shape_trouble, raw_answer, flip_answer, mark_answer, read_answer, unpack_answer, UnpackSays, show_answer};
ghost use Rattle.commands.specs.declared.answer.Answer.TheVariants.{Made};
ghost use Rattle.commands.specs.declared.trouble.Trouble.TheVariants.{NoFrame};

use crate::answer::Answer;
use crate::command::Load;
use crate::session::Session;
use crate::trouble::Trouble;
use frame::frame::Frame;
use std::alloc::Global;
use terms::content::Content;
use terms::fault::{ShapeFault, UnpackFault};
use terms::mark::Mark;
use terms::reply::Reply;

// What a buffer holds before a packet is unpacked into it.
const UNTOUCHED: u8 = 0xEE;

// Not a `From`: a trouble also says how many there were.
fn shape_trouble(fault: ShapeFault, bytes: usize, marks: usize) -> Trouble
    ensures { result ≡ shape_trouble fault bytes marks }
{
    match fault {
        ShapeFault::Bytes => Trouble::Bytes { found: bytes },
        ShapeFault::Marks => Trouble::Marks {
            found: marks,
            wanted: bytes / 16,
        },
    }
}

// Not a `From`: the answer also shows the buffer.
fn unpacked(res: Result<Content, UnpackFault>, buffer: Vec<u8>) -> Answer
    ensures { result ≡ unpack_answer res buffer }
{
    match res {
        Ok(Content::Packet { size, .. }) => Answer::Unpacked { size, buffer },
        Ok(Content::Reply(_)) => Answer::NoPacket,
        Err(fault) => Answer::Refused(fault.into()),
    }
}

// Methods of the whole session, so those that change it say by `kept` that the carrier stays: the field as a parameter would be no plainer. `flip` and `mark` stay
// apart, since they call, compare and answer other things.
impl Session {
    pub(super) fn current(&self) -> Result<Frame, Trouble>
        ensures { MatchResult result (λ f. held self.now ≡ Some f) (λ t. (held self.now ≡ None) × (t ≡ NoFrame)) }
    {
        self.frame.ok_or(Trouble::NoFrame)
    }

    // A refused packet leaves the current frame as it was.
    pub(super) fn seal(&mut self, id: u8, load: &Load) -> Answer
        ensures answer { result ≡ seal_answer (load_fault load.now) id (length (load_bytes load.now)) }
        ensures after { held self.new ≡ unless (load_fault load.now) (sealed id (load_bytes load.now)) (held self.old) }
        ensures kept { self.new.carrier ≡ self.old.carrier }
    {
        match load.packet() {
            Ok(packet) => {
                self.frame = Some(Frame::seal(&packet, id));
                Answer::Sealed {
                    id,
                    size: packet.bytes().len(),
                }
            }
            Err(fault) => Answer::Refused(fault.into()),
        }
    }

    pub(super) fn reply(&mut self, reply: Reply) -> Answer
        ensures answer { result ≡ Made reply }
        ensures after { held self.new ≡ Some (reply_frame reply) }
        ensures kept { self.new.carrier ≡ self.old.carrier }
    {
        self.frame = Some(Frame::reply(reply));
        Answer::Made(reply)
    }

    pub(super) fn raw(&mut self, bytes: &[u8], marks: &[Mark]) -> Result<Answer, Trouble>
        ensures answer { result ≡ raw_answer (parts_fault (length bytes.now) (length marks.now)) (length bytes.now) (length marks.now) }
        ensures after { held self.new ≡ unless (parts_fault (length bytes.now) (length marks.now)) (parted bytes.now marks.now) (held self.old) }
        ensures kept { self.new.carrier ≡ self.old.carrier }
    {
        let frame = Frame::from_parts(bytes, marks).map_err(|fault| shape_trouble(
            fault,
            bytes.len(),
            marks.len(),
        ))?;
        self.frame = Some(frame);
        Ok(Answer::Framed {
            groups: frame.groups(),
        })
    }

    pub(super) fn flip(&mut self, place: usize, mask: u8) -> Result<Answer, Trouble>
        ensures answer { result ≡ on_frame (held self.old) (flip_answer place mask) }
        ensures after { held self.new ≡ option_map (λ f. flipped f place mask) (held self.old) }
        ensures kept { self.new.carrier ≡ self.old.carrier }
    {
        let frame = self.frame.as_mut().ok_or(Trouble::NoFrame)?;
        frame.flip(place, mask);
        if place < frame.bytes().len() {
            Ok(Answer::Flipped { place, mask })
        } else {
            Ok(Answer::Outside)
        }
    }

    pub(super) fn mark(&mut self, character: usize, mark: Mark) -> Result<Answer, Trouble>
        ensures answer { result ≡ on_frame (held self.old) (mark_answer character mark) }
        ensures after { held self.new ≡ option_map (λ f. marked f character mark) (held self.old) }
        ensures kept { self.new.carrier ≡ self.old.carrier }
    {
        let frame = self.frame.as_mut().ok_or(Trouble::NoFrame)?;
        frame.set_mark(character, mark);
        if character < frame.marks().len() {
            Ok(Answer::Marked { character, mark })
        } else {
            Ok(Answer::Outside)
        }
    }

    pub(super) fn read(&self) -> Result<Answer, Trouble>
        ensures { result ≡ on_frame (held self.now) (λ f. read_answer (reading f)) }
    {
        match self.current()?.read() {
            Ok(content) => Ok(Answer::Good(content)),
            Err(fault) => Ok(Answer::Refused(fault.into())),
        }
    }

    pub(super) fn unpack(&self, heap: Global, size: usize) -> Result<Answer, Trouble>
        ensures { UnpackSays (held self.now) size result }
    {
        let frame = self.current()?;
        let mut buffer = vec![in heap; UNTOUCHED; size]?;
        let result = frame.unpack(buffer.as_mut_slice());
        Ok(unpacked(result, buffer))
    }

    pub(super) fn show(&self) -> Result<Answer, Trouble>
        ensures answer { result ≡ show_answer (held self.now) }
        ensures shape { IfSome (held self.now) IsFrame }
    {
        let frame = self.current()?;
        // Clauses learn the shape of a frame from a call alone.
        let _groups = frame.groups();
        Ok(Answer::Characters(frame))
    }
}
