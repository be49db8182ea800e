ghost use Rattle.std.specs.Prelude.{◌≡◌, ◌<◌, length, IfOk, OnOk};
ghost use Rattle.schedule.specs.Jobs.{SeatedIn};
ghost use Rattle.schedule.specs.Steps.{admitted};
ghost use Rattle.soundness.specs.Soundness.{StateSound};

use super::Ledger;
use schedule::{Kind, Refusal, Seated};

impl Ledger {
    // The job that asks to read or write the cell, unless that is refused.
    pub(super) fn admit(&self, ticket: u32, cell: u32, kind: Kind) -> Result<Seated, Refusal>
        ensures admitted_job { result ≡ admitted (length self.now.cells) self.now.jobs ticket cell kind }
        ensures seated_in { IfOk result (λ p. SeatedIn self.now.jobs ticket p) }
        ensures cell_there { OnOk result (cell < length self.now.cells) }
        ensures sound { StateSound self.now }
    {
        let seated = self.seated(ticket)?;
        if cell as usize >= self.tables.cells.len() {
            return Err(Refusal::NoSuchCell);
        }
        if seated.job.waits_for_another(kind, cell) {
            return Err(Refusal::JobWaits);
        }
        Ok(seated)
    }
}
