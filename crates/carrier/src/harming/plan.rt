// The plan of a harming carrier.
ghost use Rattle.std.specs.Prelude.{◌≡◌, true, [], drop, IfOk};
ghost use Rattle.carrier.specs.Harm.{harms};
ghost use Rattle.carrier.specs.Harming.{carrier_below, plan_of, planning, planned, next_harm};

use crate::fault::PlanFault;
use crate::harm::Harm;
use crate::harming::Harming;
use crate::queue::Queue;
use std::alloc::{AllocError, Global};

impl<C: Drop> Harming<C> {
    // Stands on a carrier, whatever waits in it, with an empty plan.
    pub fn new(heap: Global, inner: C) -> Result<Harming<C>, AllocError>
        ensures { IfOk result (λ s. (carrier_below s ≡ inner) × (plan_of s ≡ [])) }
    {
        let plan = Queue::new(heap)?;
        Ok(Harming { inner, plan })
    }
}

impl<C> Harming<C> {
    // Adds a harm behind those planned, and answers how many there are then.
    pub fn plan(&mut self, harm: Harm) -> Result<usize, PlanFault>
        ensures answer { result ≡ planning (plan_of self.old) harm }
        ensures after { plan_of self.new ≡ planned (plan_of self.old) harm }
        ensures below { carrier_below self.new ≡ carrier_below self.old }
    {
        if !harm.is_allowed() {
            return Err(PlanFault::Mask);
        }
        if self.plan.is_full() {
            return Err(PlanFault::Full);
        }
        self.plan.push(harm);
        Ok(self.plan.len())
    }

    // The oldest harm, which is used up; with none left, the frame passes.
    pub(super) fn next_harm(&mut self) -> Harm
        ensures next { result ≡ next_harm (plan_of self.old) }
        ensures allowed { harms result ≡ true }
        ensures used { plan_of self.new ≡ drop 1 (plan_of self.old) }
        ensures below { carrier_below self.new ≡ carrier_below self.old }
    {
        self.plan.pop().unwrap_or(Harm::Pass)
    }
}
