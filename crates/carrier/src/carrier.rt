// What every carrier does with the frames that are put into it.
ghost use Rattle.std.specs.Prelude.{◌≡◌, ℕ, Bool, false, List, [], MatchResult, OnOk, IfSome};
ghost use Rattle.frame.specs.Frame.{FrameM, IsFrame};
ghost use Rattle.carrier.specs.Carrying.{groups_of, putting, Added, Taken};

use crate::fault::CarrierFault;
use frame::frame::Frame;

pub trait Carrier {
    // the frames that wait, oldest first, each as it will come out
    ghost waiting: { Self → List FrameM };

    // whether a frame of so many groups is refused behind those that wait
    ghost full: { List FrameM → ℕ → Bool };

    // what an accepted put of a frame makes of the carrier
    ghost adds: { Self → FrameM → Self → Type 0 };

    fn is_full(&self, groups: usize) -> bool
        ensures { result ≡ full (waiting self.now) groups };

    // Refuses exactly when full, and is then as it was. Otherwise that frame is added, or a broken one, or nothing.
    fn put(&mut self, frame: &Frame) -> Result<(), CarrierFault>
        ensures answer { result ≡ putting (full (waiting self.old) (groups_of frame.now)) }
        ensures added { MatchResult result (λ _. Added (waiting self.old) frame.now (waiting self.new)) (λ _. self.new ≡ self.old) }
        ensures exactly { OnOk result (adds self.old frame.now self.new) };

    // The oldest frame, or none exactly when none waits.
    fn take(&mut self) -> Option<Frame>
        ensures oldest { Taken waiting self.old result self.new }
        ensures shape { IfSome result IsFrame };

    // an empty carrier takes any frame
    ghost empty: { (groups : ℕ) → full [] groups ≡ false };
}
