// The settlement state.
ghost use Rattle.std.specs.Prelude.{◌≡◌};
ghost use Rattle.numbers.specs.Refusals.{first_told};
ghost use Rattle.refusals.specs.Told.{number_told};
ghost use Rattle.ledger.specs.States.{opened, no_state, slot_totals, is_unsound};
ghost use Rattle.ledger.specs.Operations.{unsound_row};

use crate::State;
use heads::Head;
use numbers::{DAYS_BACK, NUMBER_LENGTH, WINDOW_SLOTS};
use refusals::Refusal;

// The state that an accepted opening gives, with head and marks as its definition has them.
pub fn opened_state(head: Head, marks: [u8; DAYS_BACK]) -> State
    ensures { result ≡ opened head marks }
{
    State {
        head,
        marks,
        points: 0,
        totals: [0; WINDOW_SLOTS],
        last: [b'0'; NUMBER_LENGTH],
    }
}

// The state of zeros, which a refused opening gives.
pub fn no_state() -> State
    ensures { result ≡ no_state }
{
    State::default()
}

// The slot totals of a state. Whoever reads them reads them here.
pub fn slot_totals(state: State) -> [i64; WINDOW_SLOTS]
    ensures { result ≡ slot_totals state }
{
    state.totals
}

// A state that no opening or adding can have given. This and the refusal are inlined, so that no copy of the state is made for the call.
#[tactic(auto, unfolding(crate::specs::States::is_unsound))]
#[inline(always)]
pub fn is_unsound(state: State) -> bool
    ensures { result ≡ is_unsound state }
{
    heads::content_refusal(state.head, state.marks).is_err()
        || state.head.count < state.points
        || figures::totals::has_beyond(
            slot_totals(state),
            heads::MOST_RESULT * u64::from(state.points),
        )
        || 0 < state.points && !numbers::is_number(&state.last)
}

// Refusal 9.
#[inline(always)]
pub fn unsound_refusal(state: State) -> Result<(), Refusal>
    ensures { number_told result ≡ first_told (unsound_row state) }
{
    if is_unsound(state) {
        return Err(Refusal::UnsoundState);
    }
    Ok(())
}
