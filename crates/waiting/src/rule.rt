ghost use Rattle.std.specs.Prelude.{◌≡◌, Bool, true, false};
ghost use Rattle.waiting.specs.declared.party.Party.{Party};

use crate::party::Party;

// A rule that says which job of a group may wait for which other of that group.
pub trait WaitingRule {
    // Whether the first party may wait for the second. As a function to Bool it gives equal questions equal answers.
    ghost may: { Self → Party → Party → Bool };

    // Whether the waiter may wait for the blocker.
    fn may_wait(&self, waiter: &Party, blocker: &Party) -> bool
        ensures answer { result ≡ may self.now waiter.now blocker.now };

    // no job may wait for itself
    ghost irreflexive: { (rule : Self) (a : Party) → may rule a a ≡ false };

    // if a may wait for b, and b for c, then a may wait for c
    ghost transitive: { (rule : Self) (a b c : Party) → may rule a b ≡ true → may rule b c ≡ true → may rule a c ≡ true };
}
