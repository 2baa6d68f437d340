// The refusals of document 01, 'Operations and their refusals', and of the change requests to it, by name.
#![tactic(auto)]

ghost use Rattle.std.specs.Prelude.{◌≡◌};
ghost use Rattle.std.specs.Range.{range_inclusive_contains};
ghost use Rattle.refusals.specs.Told.{number_of, index_of, place_of, number_told, index_told, unless};

use std::error::Error;
use std::fmt;
use std::ops::RangeInclusive;

// What an operation answers in place of what it was asked for.
#[derive(Clone, Copy, Debug, PartialEq, Eq)]
pub enum Refusal {
    // Opening.
    Lengths,
    NoSuchDate,
    Weekend,
    WindowSlot,
    Loss,
    Contract,
    Count,
    Mark,
    // Adding and closing.
    UnsoundState,
    CountReached,
    PointTag,
    PointLength,
    NotSixPlaces,
    PointNumber,
    NumberNotAbove,
    ClassOrBaseline,
    // CR 1: a share, at the place of 16.
    Share,
    // CR 3: a reading, at the place of 17, which is no longer given, with its index: of a consumer's test day or of a generating point, and
    // of a consumer's days back.
    ReadingOfTestDay(u32),
    ReadingOfDaysBack(u32),
    TooFewDays,
    CountNotReached,
    // A book and writing. Under three bytes left, or a value that is cut.
    BookCut,
    // Too few bytes to write to, or not 64 for a result.
    LentBytes,
    WrongTag,
    BytesAfter,
    // CR 4: the records of a report are too many, or end within one; one breaks a rule of closing, with its place.
    RecordsLength,
    RecordRule(u32),
}

impl Refusal {
    // The number by which the paper names it.
    pub fn number(self) -> u32
        ensures { result ≡ number_of self }
    {
        match self {
            Refusal::Lengths => 1,
            Refusal::NoSuchDate => 2,
            Refusal::Weekend => 3,
            Refusal::WindowSlot => 4,
            Refusal::Loss => 5,
            Refusal::Contract => 6,
            Refusal::Count => 7,
            Refusal::Mark => 8,
            Refusal::UnsoundState => 9,
            Refusal::CountReached => 10,
            Refusal::PointTag => 11,
            Refusal::PointLength => 12,
            Refusal::NotSixPlaces => 13,
            Refusal::PointNumber => 14,
            Refusal::NumberNotAbove => 15,
            Refusal::ClassOrBaseline => 16,
            Refusal::Share => 50,
            Refusal::ReadingOfTestDay(_) => 51,
            Refusal::ReadingOfDaysBack(_) => 52,
            Refusal::TooFewDays => 18,
            Refusal::CountNotReached => 20,
            Refusal::BookCut => 31,
            Refusal::LentBytes => 40,
            Refusal::WrongTag => 41,
            Refusal::BytesAfter => 42,
            Refusal::RecordsLength => 53,
            Refusal::RecordRule(_) => 54,
        }
    }

    // The index of the reading that it is about; 0 where it is about none.
    pub fn index(self) -> u32
        ensures { result ≡ index_of self }
    {
        match self {
            Refusal::ReadingOfTestDay(index) | Refusal::ReadingOfDaysBack(index) => index,
            _ => 0,
        }
    }

    // The place of the record that it is about; 0 where it is about none.
    pub fn place(self) -> u32
        ensures { result ≡ place_of self }
    {
        match self {
            Refusal::RecordRule(place) => place,
            _ => 0,
        }
    }
}

impl fmt::Display for Refusal {
    fn fmt<W: fmt::Write>(&self, f: &mut fmt::Formatter<W>) -> fmt::Result {
        write!(f, "refusal {}", self.number())
    }
}

impl Error for Refusal {}

// The number that an answer tells: 0 is accepted.
pub fn number_told<T: Copy>(answer: Result<T, Refusal>) -> u32
    ensures { result ≡ number_told answer }
{
    answer.err().map_or(0, Refusal::number)
}

// The index that it tells.
pub fn index_told<T: Copy>(answer: Result<T, Refusal>) -> u32
    ensures { result ≡ index_told answer }
{
    answer.err().map_or(0, Refusal::index)
}

// A value within limits; any other is refused.
pub fn within<T: PartialOrd + Copy>(
    value: T,
    limits: RangeInclusive<T>,
    refusal: Refusal,
) -> Result<(), Refusal>
    ensures { result ≡ unless (range_inclusive_contains T.partial_cmp limits value) refusal }
{
    if limits.contains(&value) {
        Ok(())
    } else {
        Err(refusal)
    }
}
