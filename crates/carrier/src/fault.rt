// What a carrier refuses.
ghost use Rattle.std.specs.Prelude.{◌≡◌};
ghost use Rattle.carrier.specs.Fault.{carrier_refusal, plan_refusal};

use terms::fault::{Layer, Refusal};

#[derive(Clone, Copy, PartialEq, Eq, Debug)]
pub enum CarrierFault {
    // there is no room for the frame
    Full,
    // there is no frame to take
    NoneWaiting,
}

// A harm that a plan does not take.
#[derive(Clone, Copy, PartialEq, Eq, Debug)]
pub enum PlanFault {
    // a flip by a mask of zero
    Mask,
    // the plan holds all it can
    Full,
}

impl From<CarrierFault> for Refusal {
    ghost from_gives = { λ f r. r ≡ carrier_refusal f };

    fn from(fault: CarrierFault) -> Refusal {
        let number = match fault {
            CarrierFault::Full => 5,
            CarrierFault::NoneWaiting => 6,
        };
        Refusal {
            number,
            layer: Layer::Carrier,
            place: 0,
        }
    }
}

impl From<PlanFault> for Refusal {
    ghost from_gives = { λ f r. r ≡ plan_refusal f };

    fn from(fault: PlanFault) -> Refusal {
        let number = match fault {
            PlanFault::Mask => 18,
            PlanFault::Full => 19,
        };
        Refusal {
            number,
            layer: Layer::Setting,
            place: 0,
        }
    }
}
