// The settlement state, and opening, adding and closing, which take it and give it.
#![tactic(auto)]

ghost use Rattle.std.specs.Prelude.{◌≡◌, length};
ghost use Rattle.ledger.specs.Operations.{open_of, add_of, places_of, close_of};
ghost use Rattle.ledger.specs.Told.{opened_told, added_told, closed_told};

mod adding;
pub mod states;
pub mod told;

use figures::Figures;
use heads::Head;
use numbers::{DAYS_BACK, DAYS_USED, NUMBER_LENGTH, WINDOW_SLOTS};
use refusals::Refusal;

// The settlement state. It goes in and comes back by value, and no field of it is trusted.
#[derive(Clone, Copy, Default)]
pub struct State {
    pub head: Head,
    // day 1 back first
    pub marks: [u8; DAYS_BACK],
    // points taken
    pub points: u32,
    // slot totals, in Wh
    pub totals: [i64; WINDOW_SLOTS],
    // the last point number
    pub last: [u8; NUMBER_LENGTH],
}

// What adding gives. The days are numbers back, nearest first; zeros of a point that is no consumer.
#[derive(Clone, Copy)]
pub struct Added {
    pub state: State,
    pub days: [u8; DAYS_USED],
}

// Opening: the head and the calendar of a test give a state with no points.
#[tactic(auto, unfolding(crate::specs::Operations::open_of))]
pub fn open(head: &[u8], calendar: &[u8]) -> Result<State, Refusal>
    ensures { opened_told result ≡ open_of head.now calendar.now }
{
    heads::opening_refusal(head, calendar)?;
    let marks = numbers::array_of(calendar);
    Ok(states::opened_state(heads::head_of(head), marks))
}

// Closing: the figures of a state whose count is reached.
#[tactic(auto, unfolding(crate::specs::Operations::close_of, crate::specs::Operations::closing_refusal))]
pub fn close(state: State) -> Result<Figures, Refusal>
    ensures { closed_told result ≡ close_of state }
{
    states::unsound_refusal(state)?;
    let head = state.head;
    let points = state.points;
    if points < head.count {
        return Err(Refusal::CountNotReached);
    }
    let totals = states::slot_totals(state);
    Ok(figures::closing::figures_of(head.contract, totals, points))
}

// Adding: a point's six results go to the lent places and into the slot totals; the days of a consumer go with the answer. A refused
// call leaves the state as it was.
pub fn add(state: State, tag: u8, value: &[u8], places: &mut [i64]) -> Result<Added, Refusal>
    ensures answer { added_told state result ≡ add_of state tag value.now (length places.old) }
    ensures lent { places.new ≡ places_of state tag value.now places.old }
{
    let point = adding::early_point(state, tag, value, places.len())?;
    let answer = results::results_of(state.head, state.marks, point).ok_or(Refusal::TooFewDays)?;
    let found = answer.found;
    figures::totals::put(places, found);
    let before = states::slot_totals(state);
    let totals = figures::totals::add_totals(before, found);
    let last = point.number();
    let days = answer.days;
    Ok(Added {
        state: State {
            points: state.points + 1,
            totals,
            last,
            ..state
        },
        days,
    })
}
