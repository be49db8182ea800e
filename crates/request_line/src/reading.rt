ghost use Rattle.request_line.specs.Lines.{NoSharedLine, OnlyReading, Reads};

use crate::reader::Reader;
use schedule::Request;

// The request that a line asks for, or the place, counted from 0, of the first byte at which no permitted line begins so;
// the length if the line stops short. `shown` of specs/Lines.antt has the permitted lines.
#[tactic(auto, using(crate::proofs::Readings::sole_readings))]
pub fn read_request(line: &[u8]) -> Result<Request<i32>, usize>
    ensures request_or_place { Reads line.now result }
    ensures only_reading { OnlyReading line.now result }
    ensures no_shared_line { NoSharedLine }
{
    let mut reader = Reader { rest: line, at: 0 };
    let letter = reader.word_and_space()?;
    reader.request(letter)
}
