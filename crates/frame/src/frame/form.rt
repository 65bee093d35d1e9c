// The form of a frame: its marks and its fixed bytes.
ghost use Rattle.std.specs.Prelude.{◌≡◌, ◌<◌, ◌≤◌, ◌==◌, not, length, map, position, IfSome};
ghost use Rattle.frame.specs.Form.{form_mark, allows, is_synced};
ghost use Rattle.frame.specs.Frame.{IsFrame};
ghost use Rattle.frame.specs.Reading.{sync_checked, form_checked};
ghost use Rattle.frame.specs.Room.{in_room};
ghost use Rattle.std.specs.List.{range_with_len, enumerate_from};
ghost use Rattle.terms.specs.Mark.{mark_number};
ghost use Rattle.terms.specs.declared.mark.Mark.TheVariants.{Zero};

use crate::frame::{Frame, Kind, link, protocol};
use crate::room;
use std::array;
use terms::fault::FrameFault;
use terms::mark::Mark;

// The byte at the end of both forms.
pub(super) const END: u8 = 0xFD;

impl Kind {
    // The mark of a character among so many.
    fn mark(self, count: usize, character: usize) -> Mark
        ensures { result ≡ form_mark self count character }
    {
        match self {
            Kind::Protocol if character != 0 && character != count.saturating_sub(1) => Mark::Data,
            _ => Mark::Control,
        }
    }

    // As many marks as a room has, of a frame of so many characters; those behind its own say nothing.
    fn all_marks(self, count: usize) -> [Mark; 40]
        ensures { result ≡ map (form_mark self count) (range_with_len 0 40) }
    {
        array::from_fn(|character| self.mark(count, character))
    }

    // The marks of so many characters, in room for five groups.
    pub(super) fn marks(self, count: usize) -> [Mark; 40]
        requires { count ≤ 40 }
        ensures { result ≡ in_room 40 Zero (map (form_mark self count) (range_with_len 0 count)) }
    {
        room::in_room(Mark::Zero, &self.all_marks(count)[..count])
    }

    // Whether the form lets a byte stand at a place of a frame of so many bytes.
    fn allows(self, size: usize, place: usize, byte: u8) -> bool
        ensures { result ≡ allows self size place byte }
    {
        // A match, not a trait with a type for each form: the kind is known only once a frame is there.
        match self {
            Kind::Protocol => protocol::allows_byte(size, place, byte),
            Kind::Link => link::allows_byte(place, byte),
        }
    }
}

impl Frame {
    // The lowest character with a sync error.
    fn lowest_sync(&self) -> Option<usize>
        ensures lowest { result ≡ position (λ m. not (is_synced m)) self.now.marks }
        ensures shape { IsFrame self.now }
    {
        self.marks()
            .iter()
            .position(|mark| !matches!(mark, Mark::Data | Mark::Control))
    }

    // The lowest character whose mark is not the form's.
    fn lowest_mark(&self, kind: Kind) -> Option<usize>
        ensures lowest { result ≡ position (λ p. not (mark_number p.1 == mark_number (form_mark kind (length self.now.marks) p.0))) (enumerate_from 0 self.now.marks) }
        ensures few { IfSome result (λ c. c < 40) }
    {
        let marks = self.marks();
        let count = marks.len();
        marks
            .iter()
            .enumerate()
            .position(|(character, mark)| *mark != kind.mark(count, character))
    }

    // The lowest place whose byte the form does not allow.
    fn lowest_byte(&self, kind: Kind) -> Option<usize>
        ensures { result ≡ position (λ p. not (allows kind (length self.now.bytes) p.0 p.1)) (enumerate_from 0 self.now.bytes) }
    {
        let bytes = self.bytes();
        let size = bytes.len();
        bytes
            .iter()
            .enumerate()
            .position(|(place, byte)| !kind.allows(size, place, *byte))
    }

    #[tactic(auto, using(crate::proofs::Searches::sync_found))]
    pub(super) fn check_sync(&self) -> Result<(), FrameFault>
        ensures checked { result ≡ sync_checked self.now }
        ensures shape { IsFrame self.now }
    {
        self.lowest_sync()
            .map_or(Ok(()), |character| Err(FrameFault::Sync(character)))
    }

    pub(super) fn check_form(&self, kind: Kind) -> Result<(), FrameFault>
        ensures { result ≡ form_checked kind self.now }
    {
        if let Some(character) = self.lowest_mark(kind) {
            return Err(FrameFault::Form(16 * character));
        }
        self.lowest_byte(kind)
            .map_or(Ok(()), |place| Err(FrameFault::Form(place)))
    }
}
