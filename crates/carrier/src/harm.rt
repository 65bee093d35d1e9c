// What a plan may do to a frame.
ghost use Rattle.std.specs.Prelude.{◌≡◌, ◌<◌, true};
ghost use Rattle.frame.specs.Frame.{IsFrame};
ghost use Rattle.carrier.specs.Harm.{harmed, harms, Worse};

use frame::frame::Frame;

#[derive(Clone, Copy, PartialEq, Eq, Debug)]
pub enum Harm {
    Pass,
    Drop,
    // xors the byte at the place by the mask
    Flip { place: usize, mask: u8 },
}

impl Harm {
    // Whether a plan takes it: a flip by a mask of zero would change nothing.
    pub(crate) fn is_allowed(self) -> bool
        ensures { result ≡ harms self }
    {
        match self {
            Harm::Flip { mask, .. } => 0 < mask,
            _ => true,
        }
    }

    // The frame as it goes on, or none if it is lost.
    pub fn apply(self, frame: &Frame) -> Option<Frame>
        ensures answer { result ≡ harmed self frame.now }
        ensures worse { harms self ≡ true → Worse frame.now result }
        ensures shape { IsFrame frame.now }
    {
        // Clauses learn the shape of a frame from a call alone, and two of the harms need none.
        let _groups = frame.groups();
        match self {
            Harm::Pass => Some(*frame),
            Harm::Drop => None,
            Harm::Flip { place, mask } => flip(frame, place, mask),
        }
    }
}

// A place outside the frame passes it as it is; a frame that is broken already is lost.
fn flip(frame: &Frame, place: usize, mask: u8) -> Option<Frame>
    ensures answer { result ≡ harmed (Harm.Flip place mask) frame.now }
    ensures worse { 0 < mask → Worse frame.now result }
{
    if frame.bytes().len() <= place {
        return Some(*frame);
    }
    if frame.read().is_err() {
        return None;
    }
    let mut flipped = *frame;
    flipped.flip(place, mask);
    Some(flipped)
}
