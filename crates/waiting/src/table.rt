ghost use Rattle.std.specs.Prelude.{◌≡◌};
ghost use Rattle.waiting.specs.Table.{entry_of, in_words};

use crate::class::Class;

// What the table of classes says of two classes.
#[derive(Clone, Copy, PartialEq, Eq, Debug)]
pub enum Decision {
    // no job of the first class may wait for one of the second
    No,
    // every job of the first class may wait for every one of the second
    Yes,
    // the rule `Elder` decides, by the two tickets
    Elder,
}

// Four rows of four: the row is the class that would wait, the column the class waited for. Beside each entry stand the
// two, as `3 for 1`. What the whole says in words is `in_words` of specs/Table.antt, which `decision_of` promises.
const TABLE: [Decision; 16] = [
    Decision::Elder, // 0 for 0
    Decision::No, // 0 for 1
    Decision::No, // 0 for 2
    Decision::No, // 0 for 3
    Decision::Yes, // 1 for 0
    Decision::Elder, // 1 for 1
    Decision::No, // 1 for 2
    Decision::No, // 1 for 3
    Decision::Yes, // 2 for 0
    Decision::No, // 2 for 1
    Decision::Elder, // 2 for 2
    Decision::No, // 2 for 3
    Decision::Yes, // 3 for 0
    Decision::Yes, // 3 for 1
    Decision::Yes, // 3 for 2
    Decision::Elder, // 3 for 3
];

// What the table says of a job of the class `waiter` that would wait for one of the class `blocker`.
#[tactic(auto, using(crate::specs::Transitive::entry_in_words))]
pub fn decision_of(waiter: Class, blocker: Class) -> Decision
    ensures table { result ≡ entry_of waiter blocker }
    ensures words { result ≡ in_words waiter blocker }
{
    TABLE[4 * waiter as usize + blocker as usize]
}
