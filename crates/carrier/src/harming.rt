// A carrier that harms frames by a plan, on their way into another carrier.
ghost use Rattle.std.specs.Prelude.{◌≡◌, true};
ghost use Rattle.carrier.specs.Harm.{all_harm};
ghost use Rattle.carrier.specs.Queue.{queue_items};

mod carries;
mod plan;

use crate::harm::Harm;
use crate::queue::Queue;

// No model: a refused put has to leave the whole queue as it was, not its items alone.
#[derive(Drop)]
pub struct Harming<C> {
    inner: C,
    plan: Queue<Harm, 64>,
    ghost harms: { all_harm (queue_items plan) ≡ true },
}
