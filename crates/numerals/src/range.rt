ghost use Rattle.std.specs.Prelude.{◌≡◌, false};
ghost use Rattle.std.specs.Range.{range_inclusive_end, range_inclusive_exhausted, range_inclusive_start};
ghost use Rattle.numerals.specs.Numerals.{high, low};

use std::ops::RangeInclusive;

// The numbers that a numeral may write.
#[derive(Clone, Copy, Debug, PartialEq, Eq)]
pub enum Range {
    // 0 to 4294967295
    Number,
    // 0 to 2147483647: a height without a minus
    Height,
    // 1 to 2147483648: what follows the minus of a height
    Depth,
}

impl Range {
    // The numbers of the range.
    pub fn numbers(self) -> RangeInclusive<u32>
        ensures lower_bound { range_inclusive_start result ≡ low self }
        ensures upper_bound { range_inclusive_end result ≡ high self }
        ensures whole { range_inclusive_exhausted result ≡ false }
    {
        match self {
            Range::Number => 0..=u32::MAX,
            Range::Height => 0..=i32::MAX as u32,
            Range::Depth => 1..=i32::MIN.unsigned_abs(),
        }
    }
}
