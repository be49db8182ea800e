ghost use Rattle.std.specs.Prelude.{◌≡◌, nat_lt};
ghost use Rattle.waiting.specs.Rules.{elder};
ghost use Rattle.std.proofs.Common.{rules};

use crate::party::Party;
use crate::rule::WaitingRule;

// The rule under which the job with the lower ticket, the one begun earlier, may wait for the job with the higher.
#[derive(Clone, Copy)]
pub struct Elder;

impl WaitingRule for Elder {
    ghost may = { λ _. elder };

    ghost irreflexive = { Prim.search rules };

    ghost transitive = { Prim.search rules };

    fn may_wait(&self, waiter: &Party, blocker: &Party) -> bool
        ensures answer { result ≡ elder waiter.now blocker.now }
        ensures lower_ticket { result ≡ nat_lt waiter.now.ticket blocker.now.ticket }
    {
        waiter.ticket < blocker.ticket
    }
}
