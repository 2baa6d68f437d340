// Cutting a field off the front of what is left of the book.
ghost use Rattle.std.specs.Prelude.{◌≡◌, ◌≤◌, IfOk, length};
ghost use Rattle.refusals.specs.Told.{number_told};
ghost use Rattle.numbers.specs.Refusals.{first_told};
ghost use Rattle.points.specs.Points.{consumer_length};
ghost use Rattle.fields.specs.Fields.{length_due, short_rows, due_tag_row, due_length_row};
ghost use Rattle.fields.specs.Fields.{tag_at, header_refusal, field_of, value_in, behind};
ghost use Rattle.fields.specs.Told.{field_told};

use crate::{Cut, Due, HEADER_LENGTH};
use points::Kind;
use refusals::Refusal;

// Where a header's length begins.
const LENGTH_AT: usize = 1;

// The length that a value must have. The name is the definition's.
pub fn length_due(due: Due, tag: u8) -> usize
    ensures value { result ≡ length_due due tag }
    ensures bound { result ≤ consumer_length }
{
    match due {
        Due::Head => heads::HEAD_LENGTH,
        Due::Calendar => heads::CALENDAR_LENGTH,
        Due::Point => points::value_length(tag),
    }
}

// Under three bytes left; none where a point is due is a count that is not reached.
fn short_refusal(due: Due, left: usize) -> Result<(), Refusal>
    ensures { number_told result ≡ first_told (short_rows due left) }
{
    if HEADER_LENGTH <= left {
        return Ok(());
    }
    match due {
        Due::Point if left == 0 => Err(Refusal::CountNotReached),
        _ => Err(Refusal::BookCut),
    }
}

// A tag that may not stand where a field is due.
fn tag_refusal(due: Due, tag: u8) -> Result<(), Refusal>
    ensures { number_told result ≡ first_told (due_tag_row due tag) }
{
    match (due, tag) {
        (Due::Head, heads::HEAD_TAG) => Ok(()),
        (Due::Calendar, heads::CALENDAR_TAG) => Ok(()),
        (Due::Point, _) => Kind::try_from(tag).map(|_| ()),
        _ => Err(Refusal::WrongTag),
    }
}

// A length that is not the one due.
fn length_refusal(due: Due, tag: u8, size: usize) -> Result<(), Refusal>
    ensures { number_told result ≡ first_told (due_length_row due tag size) }
{
    if size == length_due(due, tag) {
        return Ok(());
    }
    match due {
        Due::Head | Due::Calendar => Err(Refusal::Lengths),
        Due::Point => Err(Refusal::PointLength),
    }
}

// The tag of a header, or what ends the reading at it: 20, 31, 41 or 11, 1 or 12.
#[tactic(auto, using(refusals::proofs::Exits::exits), unfolding(crate::specs::Fields::header_refusal))]
pub fn header_tag(due: Due, left: &[u8]) -> Result<u8, Refusal>
    ensures refusal { number_told result ≡ header_refusal due left.now }
    ensures tag { IfOk result (λ tag. tag ≡ tag_at left.now) }
{
    short_refusal(due, left.len())?;
    let tag = left[0];
    tag_refusal(due, tag)?;
    length_refusal(due, tag, usize::from(numbers::word16_at(left, LENGTH_AT)))?;
    Ok(tag)
}

// The field answer.
#[tactic(auto, using(refusals::proofs::Exits::exits, crate::proofs::Answers::answers))]
pub fn cut(due: Due, left: &[u8]) -> Result<Cut<'_>, Refusal>
    ensures answer { field_told result ≡ field_of due left.now }
    ensures value { IfOk result (λ cut. cut.value.now ≡ value_in (length cut.value.now) left.now) }
    ensures behind { IfOk result (λ cut. cut.behind.now ≡ behind (length cut.value.now) left.now) }
{
    let tag = header_tag(due, left)?;
    let (value, behind) = left[HEADER_LENGTH..]
        .split_at_checked(length_due(due, tag))
        .ok_or(Refusal::BookCut)?;
    Ok(Cut { tag, value, behind })
}
