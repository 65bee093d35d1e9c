// The commands on the carrier.
ghost use Rattle.std.specs.Prelude.{◌≡◌, IfOk};
ghost use Rattle.std.specs.Option.{option_map};
ghost use Rattle.commands.specs.Carrying.{carrying, unused, on_carrier, plan_answer, plan_after, put_says, put_leaves, take_answer, take_after, take_frame};
ghost use Rattle.commands.specs.Session.{held, carried, CarrierSays};

use crate::answer::Answer;
use crate::command::CarrierKind;
use crate::session::Session;
use crate::trouble::Trouble;
use carrier::carrier::Carrier;
use carrier::fault::CarrierFault;
use carrier::harm::Harm;
use carrier::harming::Harming;
use carrier::straight::Straight;
use std::alloc::{AllocError, Global};

fn straight(heap: Global) -> Result<Harming<Straight>, AllocError>
    ensures { IfOk result (λ c. carrying c ≡ unused) }
{
    Harming::new(heap, Straight::new(heap)?)
}

// As in `frames`, those that leave the frame say so by `kept`.
impl Session {
    // The new carrier takes the place of the one that was there.
    pub(super) fn make_carrier(
        &mut self,
        heap: Global,
        kind: CarrierKind,
    ) -> Result<Answer, Trouble>
        ensures { CarrierSays kind self.old result self.new }
    {
        let carrier = match kind {
            CarrierKind::Straight => straight(heap)?,
        };
        self.carrier = Some(carrier);
        Ok(Answer::Carrier(kind))
    }

    pub(super) fn plan(&mut self, harm: Harm) -> Result<Answer, Trouble>
        ensures answer { result ≡ on_carrier (carried self.old) (plan_answer harm) }
        ensures after { carried self.new ≡ option_map (plan_after harm) (carried self.old) }
        ensures kept { held self.new ≡ held self.old }
    {
        let carrier = self.carrier.as_mut().ok_or(Trouble::NoCarrier)?;
        match carrier.plan(harm) {
            Ok(harms) => Ok(Answer::Planned { harms }),
            Err(fault) => Ok(Answer::Refused(fault.into())),
        }
    }

    // The frame is asked for first, then the carrier.
    pub(super) fn put(&mut self) -> Result<Answer, Trouble>
        ensures answer { result ≡ put_says (held self.old) (carried self.old) }
        ensures after { carried self.new ≡ put_leaves (held self.old) (carried self.old) }
        ensures kept { held self.new ≡ held self.old }
    {
        let frame = self.current()?;
        let carrier = self.carrier.as_mut().ok_or(Trouble::NoCarrier)?;
        match carrier.put(&frame) {
            Ok(()) => Ok(Answer::Put),
            Err(fault) => Ok(Answer::Refused(fault.into())),
        }
    }

    // The oldest frame that waits takes the place of the one that was there.
    pub(super) fn take(&mut self) -> Result<Answer, Trouble>
        ensures answer { result ≡ on_carrier (carried self.old) take_answer }
        ensures after { carried self.new ≡ option_map take_after (carried self.old) }
        ensures frame { held self.new ≡ take_frame (carried self.old) (held self.old) }
    {
        let carrier = self.carrier.as_mut().ok_or(Trouble::NoCarrier)?;
        let Some(taken) = carrier.take() else {
            return Ok(Answer::Refused(CarrierFault::NoneWaiting.into()));
        };
        self.frame = Some(taken);
        Ok(Answer::Taken)
    }
}
