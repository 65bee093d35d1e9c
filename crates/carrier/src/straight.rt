// A carrier that keeps up to eight frames and harms none.
ghost use Rattle.std.specs.Prelude.{◌≡◌, true};
ghost use Rattle.carrier.specs.Carrying.{all_frames};
ghost use Rattle.carrier.specs.Queue.{queue_items};

mod carries;

use crate::queue::Queue;
use frame::frame::Frame;

// No model: a refused put has to leave the whole queue as it was, not its items alone.
#[derive(Drop)]
pub struct Straight {
    queue: Queue<Frame, 8>,
    ghost frames: { all_frames (queue_items queue) ≡ true },
}
