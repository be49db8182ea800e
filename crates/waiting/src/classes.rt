ghost use Rattle.std.specs.Prelude.{◌≡◌};
ghost use Rattle.waiting.specs.Rules.{classes, decided};
ghost use Rattle.waiting.specs.Table.{in_words};
ghost use Rattle.waiting.specs.Transitive.{classes_transitive};
ghost use Rattle.std.proofs.Common.{rules};

use crate::elder::Elder;
use crate::party::Party;
use crate::rule::WaitingRule;
use crate::table::{Decision, decision_of};

// The rule that goes by the table of classes, which leaves jobs of one class to the rule `Elder`.
#[derive(Clone, Copy)]
pub struct Classes;

impl WaitingRule for Classes {
    ghost may = { λ _. classes };

    ghost irreflexive = { Prim.search rules };

    ghost transitive = { λ _. classes_transitive };

    fn may_wait(&self, waiter: &Party, blocker: &Party) -> bool
        ensures answer { result ≡ classes waiter.now blocker.now }
        ensures words { result ≡ decided (in_words waiter.now.class blocker.now.class) waiter.now blocker.now }
    {
        match decision_of(waiter.class, blocker.class) {
            Decision::No => false,
            Decision::Yes => true,
            Decision::Elder => Elder.may_wait(waiter, blocker),
        }
    }
}
