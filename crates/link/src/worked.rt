// The worked run of the rules, and the law that holds of every run.
ghost use Rattle.std.specs.Prelude.{◌≡◌};
ghost use Rattle.link.specs.Totals.{counts};
ghost use Rattle.link.specs.Law.{Law};
ghost use Rattle.link.specs.Runs.{Run, fresh_pair};
ghost use Rattle.link.specs.Worked.{worked, worked_pair};

use crate::counts::Counts;
use crate::side::Side;
use carrier::carrier::Carrier;

// The counts of the worked run in the direction of one near end. Until the calls of an end carry it themselves, the law stands here: every run of calls
// from a fresh pair is faithful, over every two carriers; and the worked run is one of them.
#[tactic(auto, using(crate::proofs::EveryRun::every_run, crate::proofs::WorkedRun::worked_runs))]
pub fn worked_counts<C: Carrier, D: Carrier>(near: Side) -> Counts
    ensures law { Law C.Carrier.full D.Carrier.full fresh_pair }
    ensures run { Run C.Carrier.full D.Carrier.full fresh_pair worked worked_pair }
    ensures counts { result ≡ counts near worked worked_pair }
{
    match near {
        Side::A => Counts {
            taken: 2,
            handed_up: 1,
            released: 1,
            held: 1,
        },
        Side::B => Counts {
            taken: 0,
            handed_up: 0,
            released: 0,
            held: 0,
        },
    }
}
