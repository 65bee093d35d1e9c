// What a straight carrier does.
ghost use Rattle.std.specs.Prelude.{◌≡◌, refl, [], ◌∷◌, ◌++◌, IfOk, MatchResult};
ghost use Rattle.carrier.specs.Carrying.{groups_of, putting};
ghost use Rattle.carrier.specs.Straight.{straight_waiting, straight_full};

use crate::carrier::Carrier;
use crate::fault::CarrierFault;
use crate::queue::Queue;
use crate::straight::Straight;
use frame::frame::Frame;
use std::alloc::{AllocError, Global};

impl Straight {
    pub fn new(heap: Global) -> Result<Straight, AllocError>
        ensures { IfOk result (λ s. straight_waiting s ≡ []) }
    {
        let queue = Queue::new(heap)?;
        Ok(Straight { queue })
    }
}

impl Carrier for Straight {
    ghost waiting = { straight_waiting };

    ghost full = { straight_full };

    ghost adds = { λ s f t. straight_waiting t ≡ straight_waiting s ++ f ∷ [] };

    ghost empty = { λ _. refl };

    fn is_full(&self, _groups: usize) -> bool {
        self.queue.is_full()
    }

    #[tactic(auto, using(crate::proofs::Shapes::frame_is))]
    fn put(&mut self, frame: &Frame) -> Result<(), CarrierFault>
        ensures answer { result ≡ putting (straight_full (straight_waiting self.old) (groups_of frame.now)) }
        ensures unharmed { MatchResult result (λ _. straight_waiting self.new ≡ straight_waiting self.old ++ frame.now ∷ []) (λ _. self.new ≡ self.old) }
    {
        if self.is_full(frame.groups()) {
            return Err(CarrierFault::Full);
        }
        self.queue.push(*frame);
        Ok(())
    }

    #[tactic(auto, using(crate::proofs::Shapes::is_shaped))]
    fn take(&mut self) -> Option<Frame> {
        self.queue.pop()
    }
}
