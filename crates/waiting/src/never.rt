ghost use Rattle.std.specs.Prelude.{◌≡◌, false};
ghost use Rattle.waiting.specs.Rules.{never};
ghost use Rattle.std.proofs.Common.{rules};

use crate::party::Party;
use crate::rule::WaitingRule;

// The rule under which no job may wait.
#[derive(Clone, Copy)]
pub struct Never;

impl WaitingRule for Never {
    ghost may = { λ _. never };

    ghost irreflexive = { Prim.search rules };

    ghost transitive = { Prim.search rules };

    fn may_wait(&self, waiter: &Party, blocker: &Party) -> bool
        ensures answer { result ≡ never waiter.now blocker.now }
        ensures no { result ≡ false }
    {
        false
    }
}
