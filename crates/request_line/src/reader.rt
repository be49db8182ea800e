ghost use Rattle.std.specs.Prelude.{◌≡◌, ◌+◌, ◌^◌, ◌<◌, length, MatchResult};
ghost use Rattle.request_line.specs.Words.{FaultAt, NotParted, NoWord, Parted, RequestAfter, Saying, Stands, part_of, place_of};

use crate::from_word::FromWord;
use crate::word::{Letter, Word};
use schedule::Request;

impl<'a> Word<'a> {
    // The part of the line that the word is.
    fn part(self) -> &'a [u8]
        ensures part_of_line { result.now ≡ part_of self.entry }
    {
        let (Word::Letter(part, _, _) | Word::Number(part, _, _) | Word::Height(part, _, _)) = self;
        part
    }

    // The place after the word.
    fn end(self) -> usize
        requires end_fits { place_of self + length (part_of self) < 2 ^ 64 }
        ensures end_of_word { result ≡ place_of self.entry + length (part_of self.entry) }
    {
        let (Word::Letter(part, place, _)
        | Word::Number(part, place, _)
        | Word::Height(part, place, _)) = self;
        place + part.len()
    }
}

// What is left to read of a line, and the place in the line at which it begins. After an error no more is read.
#[derive(Clone, Copy)]
pub(crate) struct Reader<'a> {
    pub(crate) rest: &'a [u8],
    pub(crate) at: usize,
    ghost end_fits: { at + length rest.now < 2 ^ 64 },
}

impl Reader<'_> {
    // What the next word says.
    fn word<V: FromWord>(&mut self) -> Result<V, usize>
        ensures value_or_place { MatchResult result
            (Stands V.Says self.old.rest.now self.old.at self.new.rest.now self.new.at)
            (NoWord V.Says self.old.rest.now self.old.at) }
    {
        let word = V::next_word(self)?;
        self.rest = &self.rest[word.part().len()..];
        self.at = word.end();
        Ok(V::from_word(word).unwrap())
    }

    // What the next word says, which a space follows.
    #[tactic(auto, using(crate::proofs::Languages::spaced))]
    pub(crate) fn word_and_space<V: FromWord>(&mut self) -> Result<V, usize>
        ensures value_or_place { MatchResult result
            (Parted V.Says self.old.rest.now self.old.at self.new.rest.now self.new.at)
            (NotParted V.Says self.old.rest.now self.old.at) }
    {
        let value = self.word()?;
        let Some((b' ', rest)) = self.rest.split_first() else {
            return Err(self.at);
        };
        self.rest = rest;
        self.at += 1;
        Ok(value)
    }

    // What the last word says, after which the line ends.
    #[tactic(auto, using(crate::proofs::Languages::no_word, crate::proofs::Languages::past))]
    fn last_word<V: FromWord>(&mut self) -> Result<V, usize>
        ensures value_or_place { MatchResult result
            (V.Says self.old.rest.now)
            (FaultAt (Saying V.Says) self.old.rest.now self.old.at) }
    {
        let value = self.word()?;
        if !self.rest.is_empty() {
            return Err(self.at);
        }
        Ok(value)
    }

    // The request that the words after its letter and a space make.
    #[tactic(auto, using(crate::proofs::Whole::wrong_words))]
    pub(crate) fn request(mut self, letter: Letter) -> Result<Request<i32>, usize>
        ensures request_or_place { RequestAfter letter self.entry.rest.now self.entry.at result }
    {
        match letter {
            Letter::Begin => Ok(Request::Begin(self.last_word()?)),
            Letter::Read => {
                let ticket = self.word_and_space()?;
                let cell = self.last_word()?;
                Ok(Request::Read(ticket, cell))
            }
            Letter::Write => {
                let ticket = self.word_and_space()?;
                let cell = self.word_and_space()?;
                let height = self.last_word()?;
                Ok(Request::Write(ticket, cell, height))
            }
            Letter::End => Ok(Request::End(self.last_word()?)),
            Letter::GiveUp => Ok(Request::GiveUp(self.last_word()?)),
            Letter::GroupSize => Ok(Request::GroupSize(self.last_word()?)),
        }
    }
}
