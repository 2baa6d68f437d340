// The refusals of adding, in the order in which they are told.
ghost use Rattle.std.specs.Prelude.{◌≡◌, IfOk};
ghost use Rattle.numbers.specs.Refusals.{first_told};
ghost use Rattle.refusals.specs.Told.{number_told};
ghost use Rattle.points.specs.Points.{with_index};
ghost use Rattle.points.specs.Told.{tag_of, refusal_told};
ghost use Rattle.ledger.specs.Operations.{number_rows, state_rows, early_refusal};

use crate::{State, states};
use numbers::{NUMBER_LENGTH, WINDOW_SLOTS};
use points::Point;
use refusals::Refusal;

// A number that is not allowed, or not above the last one; the first point has none before it.
fn number_refusal(
    number: [u8; NUMBER_LENGTH],
    points: u32,
    last: [u8; NUMBER_LENGTH],
) -> Result<(), Refusal>
    ensures { number_told result ≡ first_told (number_rows points last number) }
{
    if !numbers::is_number(&number) {
        return Err(Refusal::PointNumber);
    }
    if 0 < points && !numbers::is_below(&last, &number) {
        return Err(Refusal::NumberNotAbove);
    }
    Ok(())
}

// A state that 9 refuses, or one whose count is reached.
fn state_refusal(state: State) -> Result<(), Refusal>
    ensures { number_told result ≡ first_told (state_rows state) }
{
    states::unsound_refusal(state)?;
    if state.head.count <= state.points {
        return Err(Refusal::CountReached);
    }
    Ok(())
}

// The point, or what is told before the days are chosen: 9 to 15, 16 or 50, 51 or 52, with the index of a reading.
#[tactic(auto, unfolding(crate::specs::Operations::early_refusal))]
pub fn early_point(state: State, tag: u8, value: &[u8], places: usize) -> Result<Point<'_>, Refusal>
    ensures told { refusal_told result ≡ with_index (early_refusal state tag value.now places) tag value.now }
    ensures given { IfOk result (λ point. (tag_of point.kind ≡ tag) × (point.value.now ≡ value.now)) }
{
    state_refusal(state)?;
    let point = Point::new(tag, value)?;
    if places != WINDOW_SLOTS {
        return Err(Refusal::NotSixPlaces);
    }
    number_refusal(point.number(), state.points, state.last)?;
    point.value_refusal()?;
    Ok(point)
}
