ghost use Rattle.std.specs.Prelude.{◌≡◌};
ghost use Rattle.schedule.specs.Steps.{group_size_step};
ghost use Rattle.soundness.specs.Soundness.{StateSound};

use super::Ledger;
use schedule::Refusal;

impl Ledger {
    // A group takes this many jobs, from the next begin on.
    pub fn set_group_size(&mut self, size: u32) -> Result<u32, Refusal>
        ensures answer_and_state_after { group_size_step self.old size ≡ (result, self.new) }
        ensures sound_before { StateSound self.old }
        ensures sound { StateSound self.new }
    {
        // `len` says that the ledger is sound, where nothing else is asked of it.
        let _ = self.len();
        if !(1..=1_000_000).contains(&size) {
            return Err(Refusal::NoSuchGroupSize);
        }
        self.tables.counters.group_size = size;
        Ok(size)
    }
}
