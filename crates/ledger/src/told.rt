// What goes with an answer, also with a refusal, which hands nothing on: what the definitions say of a refused call.
ghost use Rattle.std.specs.Prelude.{◌≡◌};
ghost use Rattle.ledger.specs.Told.{opened_told, added_told, closed_told};

use crate::{Added, State, states};
use figures::Figures;
use numbers::DAYS_USED;
use refusals::Refusal;

// The state that an opening gives: of zeros where it is refused.
pub fn opened_state(answer: Result<State, Refusal>) -> State
    ensures { result ≡ (opened_told answer).state }
{
    answer.unwrap_or(states::no_state())
}

// The state and the days that an adding gives: where it is refused, the state that it was given, and no days.
pub fn added_state(state: State, answer: Result<Added, Refusal>) -> Added
    ensures state { result.state ≡ (added_told state answer).state }
    ensures days { result.days ≡ (added_told state answer).days }
{
    let days = [0; DAYS_USED];
    answer.unwrap_or(Added { state, days })
}

// The figures that a closing gives: zeros where it is refused.
pub fn closed_figures(answer: Result<Figures, Refusal>) -> Figures
    ensures { result ≡ (closed_told answer).figures }
{
    answer.unwrap_or(figures::closing::no_figures())
}
