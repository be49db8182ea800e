// The boundary cases of the scheduler. In specs/: the table of them, and the statement that each of its lines holds; in
// proofs/: that it follows from the definitions of the requests.
#![tactic(auto)]

ghost use Rattle.std.specs.Prelude.{◌≡◌, length};
ghost use Rattle.cases.specs.Cases.{EveryLineHolds, cases};

// How many lines the table has. Each of them holds, by the definitions alone.
pub fn boundary_cases() -> usize
    ensures every_line_holds { EveryLineHolds }
    ensures number_of_lines { result ≡ length cases }
{
    12
}
