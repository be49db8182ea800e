ghost use Rattle.std.specs.Prelude.{◌≡◌, List, ℕ, Option, MatchResult};
ghost use Rattle.request_line.specs.declared.word.Word.{Word};
ghost use Rattle.request_line.specs.Words.{Begun, Front, IsWord, NoFront, NoWord, SaysHeight, SaysLetter, SaysNumber, height_said, letter_said, number_said};

use crate::reader::Reader;
use crate::word::{Letter, Word};
use numerals::{Range, digits};

// What a word may say: a letter, a number or a height.
pub(crate) trait FromWord: Copy {
    // A text says it.
    ghost Says: { List ℕ → Self → Type 0 };

    // What a word says, if it is a word of this kind.
    ghost said: { Word → Option Self };

    // The word of this kind that is next, or the place up to which what is left goes on to one.
    fn next_word<'a>(reader: &Reader<'a>) -> Result<Word<'a>, usize>
        ensures word_or_place { MatchResult result
            (IsWord Says said reader.now.rest.now reader.now.at)
            (NoWord Says reader.now.rest.now reader.now.at) };

    // What the word says, if it is a word of this kind.
    fn from_word(word: Word<'_>) -> Option<Self>
        ensures { result ≡ said word.entry };
}

// How many bytes at the front go on to a numeral of the range, and the number that they write; none if no digit does.
fn numeral(text: &[u8], range: Range) -> Option<(usize, u32)>
    ensures digits_or_none { Begun range text.now result }
{
    match digits(text, range) {
        (0, _) => None,
        found => Some(found),
    }
}

impl FromWord for Letter {
    ghost Says = { SaysLetter };

    ghost said = { letter_said };

    #[tactic(auto, using(crate::proofs::Figures::letter_word, crate::proofs::Figures::no_letter))]
    fn next_word<'a>(reader: &Reader<'a>) -> Result<Word<'a>, usize> {
        let byte = reader.rest.first().ok_or(reader.at)?;
        let Ok(letter) = Letter::try_from(*byte) else {
            return Err(reader.at);
        };
        Ok(Word::Letter(&reader.rest[..1], reader.at, letter))
    }

    fn from_word(word: Word<'_>) -> Option<Letter> {
        match word {
            Word::Letter(_, _, letter) => Some(letter),
            _ => None,
        }
    }
}

impl FromWord for u32 {
    ghost Says = { SaysNumber };

    ghost said = { number_said };

    #[tactic(auto, using(crate::proofs::Figures::no_number))]
    fn next_word<'a>(reader: &Reader<'a>) -> Result<Word<'a>, usize> {
        let (count, number) = numeral(reader.rest, Range::Number).ok_or(reader.at)?;
        Ok(Word::Number(&reader.rest[..count], reader.at, number))
    }

    fn from_word(word: Word<'_>) -> Option<u32> {
        match word {
            Word::Number(_, _, number) => Some(number),
            _ => None,
        }
    }
}

// How many bytes at the front are a height, and the height; or how many go on to one and are none.
#[tactic(auto, using(crate::proofs::Figures::no_heights))]
fn height(text: &[u8]) -> Result<(usize, i32), usize>
    ensures height_or_count { MatchResult result (λ q. Front SaysHeight text.now q.0 q.1) (NoFront SaysHeight text.now) }
{
    match text.split_first() {
        Some((b'-', depth)) => {
            let (count, size) = numeral(depth, Range::Depth).ok_or(1usize)?;
            Ok((count + 1, -i64::from(size) as i32))
        }
        _ => {
            let (count, size) = numeral(text, Range::Height).ok_or(0usize)?;
            Ok((count, size as i32))
        }
    }
}

impl FromWord for i32 {
    ghost Says = { SaysHeight };

    ghost said = { height_said };

    fn next_word<'a>(reader: &Reader<'a>) -> Result<Word<'a>, usize> {
        match height(reader.rest) {
            Ok((count, height)) => Ok(Word::Height(&reader.rest[..count], reader.at, height)),
            Err(count) => Err(reader.at + count),
        }
    }

    fn from_word(word: Word<'_>) -> Option<i32> {
        match word {
            Word::Height(_, _, height) => Some(height),
            _ => None,
        }
    }
}
