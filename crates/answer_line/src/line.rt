ghost use Rattle.std.specs.Prelude.{◌≡◌, ◌+◌, ◌^◌, ◌<◌, ◌≤◌, true, [], ◌∷◌, ◌++◌, is_ok, if◌then◌else◌, length, vec_len, vec_capacity, decimal};
ghost use Rattle.answer_line.specs.Lines.{InRange, NoSharedLine, OneLine};
ghost use Rattle.answer_line.specs.Text.{refused_text, text};
ghost use Rattle.std.specs.Fmt.{signed_decimal};

use crate::answer::Answer;
use itoa::write_digits;
use std::alloc::AllocError;
use std::marker::Model;

// The end of a line, in the last of 64 bytes. A line is put together from its end, since a number's digits come last first:
// so each of its bytes is put where it stays.
#[derive(Drop)]
struct LineEnd {
    bytes: [u8; 64],
    // where it begins
    at: usize,
}

impl Model for LineEnd {
    ghost use Rattle.std.specs.Prelude.{ℕ, ◌≤◌, List, drop};

    ghost Value = { List ℕ };

    ghost view = { λ line. drop line.at line.bytes };

    ghost invariant = { λ line. line.at ≤ 64 };
}

impl LineEnd {
    // The byte that ends a line, and nothing before it.
    fn newline() -> LineEnd
        ensures line { result ≡ 10 ∷ [] }
    {
        let mut bytes = [0u8; 64];
        bytes[63] = b'\n';
        LineEnd { bytes, at: 63 }
    }

    // A byte before it. (`inline` here and below: a call would cost more than what is done, at each part of each line.)
    #[inline(always)]
    fn put(&mut self, byte: u8)
        requires room { length self.old < 64 }
        ensures line { self.new ≡ byte ∷ self.old }
    {
        self.at -= 1;
        self.bytes[self.at] = byte;
    }

    // The digits of a number before it. One of 32 bits has at most 10, and one of 64 bits at most 20.
    #[inline(always)]
    fn put_digits(&mut self, n: u64)
        requires room { length self.old + 20 ≤ 64 }
        ensures line { self.new ≡ decimal n ++ self.old }
        ensures at_most_20_digits { length self.new ≤ length self.old + 20 }
        ensures at_most_10_digits { n < 2 ^ 32 → length self.new ≤ length self.old + 10 }
    {
        self.at = write_digits(n, &mut self.bytes, self.at);
    }

    // A space and a number before it.
    #[inline(always)]
    fn put_number(&mut self, n: u64)
        requires room { length self.old + 21 ≤ 64 }
        ensures line { self.new ≡ 32 ∷ (decimal n ++ self.old) }
        ensures at_most_21_bytes { length self.new ≤ length self.old + 21 }
        ensures at_most_11_bytes { n < 2 ^ 32 → length self.new ≤ length self.old + 11 }
    {
        self.put_digits(n);
        self.put(b' ');
    }

    // A height before it.
    fn put_height(&mut self, height: i32)
        requires room { length self.old + 20 ≤ 64 }
        ensures line { self.new ≡ signed_decimal height ++ self.old }
        ensures at_most_11_bytes { length self.new ≤ length self.old + 11 }
    {
        self.put_digits(u64::from(height.unsigned_abs()));
        if height < 0 {
            self.put(b'-');
        }
    }

    // The line `N number detail`, before the byte that ends it.
    #[inline(always)]
    fn put_refusal(&mut self, number: u32, detail: u64)
        requires newline_alone { self.old ≡ 10 ∷ [] }
        ensures line { self.new ≡ refused_text number detail ++ 10 ∷ [] }
    {
        self.put_number(detail);
        self.put_number(u64::from(number));
        self.put(b'N');
    }

    // The text of an answer before the byte that ends a line.
    fn put_answer(&mut self, answer: Answer)
        requires newline_alone { self.old ≡ 10 ∷ [] }
        ensures line { self.new ≡ text answer ++ 10 ∷ [] }
        ensures in_range { InRange answer }
    {
        match answer {
            Answer::Begun(ticket, group, place) => {
                self.put_number(u64::from(place));
                self.put_number(u64::from(group));
                self.put_number(u64::from(ticket));
                self.put(b'T');
            }
            Answer::Cell(height) => {
                self.put_height(height);
                self.put(b' ');
                self.put(b'V');
            }
            Answer::Written => self.put(b'K'),
            Answer::Ended(group, end) => {
                self.put_number(u64::from(end));
                self.put_number(u64::from(group));
                self.put(b'E');
            }
            Answer::GivenUp => self.put(b'U'),
            Answer::GroupSize(size) => {
                self.put_number(u64::from(size));
                self.put(b'L');
            }
            Answer::Wait(ticket) => {
                self.put_number(u64::from(ticket));
                self.put(b'Y');
            }
            Answer::Rejected(why) => self.put_refusal(why.number(), u64::from(why.detail())),
            Answer::Refused(why) => self.put_refusal(why.number(), 0),
            Answer::NoRequest(place) => self.put_refusal(10, place as u64),
        }
    }

    // Its bytes, to be appended.
    fn as_bytes(&self) -> &[u8]
        ensures bytes { result.now ≡ self.now }
        ensures at_most_64 { length self.now ≤ 64 }
    {
        &self.bytes[self.at..]
    }
}

// Appends the line of an answer, or nothing where there is no memory for it. A line is at most 64 bytes long.
#[tactic(auto, using(crate::proofs::Distinct::one_line, crate::proofs::Distinct::no_shared_line))]
pub fn append_line(answer: &Answer, out: &mut Vec<u8>) -> Result<(), AllocError>
    ensures line_appended { out.new.items ≡ (if is_ok result then out.old.items ++ (text answer.now ++ 10 ∷ []) else out.old.items) }
    ensures succeeds_in_room { vec_len out.old + 64 ≤ vec_capacity out.old → is_ok result ≡ true }
    ensures capacity_kept { vec_capacity out.old ≤ vec_capacity out.new }
    ensures one_line { OneLine answer.now }
    ensures in_range { InRange answer.now }
    ensures no_shared_line { NoSharedLine }
{
    let mut line = LineEnd::newline();
    line.put_answer(*answer);
    out.extend_from_slice(line.as_bytes())
}
