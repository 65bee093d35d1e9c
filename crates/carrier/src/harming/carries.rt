// What a harming carrier does.
ghost use Rattle.std.specs.Prelude.{◌≡◌, IfSome};
ghost use Rattle.frame.specs.Frame.{IsFrame};
ghost use Rattle.carrier.specs.Carrying.{Taken};
ghost use Rattle.carrier.specs.Harming.{carrier_below, plan_of, Handed};

use crate::carrier::Carrier;
use crate::fault::CarrierFault;
use crate::harming::Harming;
use frame::frame::Frame;

impl<C: Carrier> Carrier for Harming<C> {
    ghost waiting = { λ s. C.Carrier.waiting (carrier_below s) };

    ghost full = { C.Carrier.full };

    ghost adds = { λ s f t. Handed C.Carrier.adds s f t };

    ghost empty = { C.empty };

    fn is_full(&self, groups: usize) -> bool {
        self.inner.is_full(groups)
    }

    fn put(&mut self, frame: &Frame) -> Result<(), CarrierFault> {
        if self.inner.is_full(frame.groups()) {
            return Err(CarrierFault::Full);
        }
        let Some(handed) = self.next_harm().apply(frame) else {
            return Ok(());
        };
        self.inner.put(&handed)
    }

    fn take(&mut self) -> Option<Frame>
        ensures oldest { Taken (λ s. C.Carrier.waiting (carrier_below s)) self.old result self.new }
        ensures plan { plan_of self.new ≡ plan_of self.old }
        ensures shape { IfSome result IsFrame }
    {
        self.inner.take()
    }
}
