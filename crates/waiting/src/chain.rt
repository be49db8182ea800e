ghost use Rattle.std.specs.Prelude.{◌≡◌};
ghost use Rattle.waiting.specs.Chains.{chain_from, NoCycle};

use crate::party::Party;
use crate::rule::WaitingRule;

// Whether the first party may wait for the head of the rest, and each of the rest for the next.
//
// Under any rule no such chain, however long, comes back to its start.
#[tactic(auto, using(crate::proofs::Cycles::no_cycle))]
pub fn is_chain_of_waits<W: WaitingRule>(rule: &W, first: &Party, rest: &[Party]) -> bool
    ensures answer { result ≡ chain_from (W.WaitingRule.may rule.now) first.now rest.now }
    ensures no_cycle { NoCycle (W.WaitingRule.may rule.now) }
{
    let mut waiter = first;
    for blocker in rest {
        if !rule.may_wait(waiter, blocker) {
            return false;
        }
        waiter = blocker;
    }
    true
}
