ghost use Rattle.std.specs.Prelude.{◌≡◌, MatchResult, ◌≢◌};
ghost use Rattle.request_line.specs.declared.word.Letter.{Letter};
ghost use Rattle.request_line.specs.Words.{letter_byte};

// What the first letter of a line selects.
#[derive(Clone, Copy, Debug, PartialEq, Eq)]
pub enum Letter {
    Begin,
    Read,
    Write,
    End,
    GiveUp,
    GroupSize,
}

// The byte is none of the letters.
#[derive(Clone, Copy, Debug, PartialEq, Eq)]
pub struct NoLetter;

impl TryFrom<u8> for Letter {
    type Error = NoLetter;

    ghost try_from_gives = { λ byte r.
        MatchResult r (λ k. byte ≡ letter_byte k) (λ _. (k : Letter) → byte ≢ letter_byte k) };

    fn try_from(byte: u8) -> Result<Letter, NoLetter> {
        match byte {
            b'B' => Ok(Letter::Begin),
            b'R' => Ok(Letter::Read),
            b'W' => Ok(Letter::Write),
            b'E' => Ok(Letter::End),
            b'G' => Ok(Letter::GiveUp),
            b'L' => Ok(Letter::GroupSize),
            _ => Err(NoLetter),
        }
    }
}

// A word of a request line: the part of the line that it is, its place there, and what it says.
#[derive(Clone, Copy, Debug, PartialEq, Eq)]
pub enum Word<'a> {
    Letter(&'a [u8], usize, Letter),
    Number(&'a [u8], usize, u32),
    Height(&'a [u8], usize, i32),
}
