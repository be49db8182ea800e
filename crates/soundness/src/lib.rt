// What a sound ledger is, apart from any code: in specs/ the invariant of the rows of jobs, the records of the cells and
// the counters; in proofs/ that each change of them keeps it. The ledger has the invariant in its type.
#![tactic(auto)]
