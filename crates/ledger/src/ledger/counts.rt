ghost use Rattle.std.specs.Prelude.{◌≡◌, ◌+◌};
ghost use Rattle.schedule.specs.States.{report_of};
ghost use Rattle.soundness.specs.Soundness.{StateSound};

use super::Ledger;
use schedule::Report;

impl Ledger {
    // The jobs begun so far, and what became of them. Those that are not closed are open.
    pub fn report(&self) -> Report
        ensures counts { result ≡ report_of self.now }
        ensures each_job_counted_once { result.begun ≡ result.ended + result.given_up + result.rejected + result.«open» }
        ensures sound { StateSound self.now }
    {
        let n = self.tables.counters;
        Report {
            begun: n.begun,
            ended: n.ended,
            given_up: n.given_up,
            rejected: n.rejected,
            open: n.begun - n.ended - n.given_up - n.rejected,
        }
    }
}
