// The text of a settled or refused book, as settle_book prints it.
#![tactic(auto)]

ghost use Rattle.std.specs.Prelude.{◌≡◌, IfOk};
ghost use Rattle.refusals.specs.Told.{number_told};
ghost use Rattle.book.specs.Endings.{closed_after};
ghost use Rattle.book.specs.Told.{ending_told};
ghost use Rattle.printing.specs.Printed.{text_of};

use arrayvec::ArrayVec;
use figures::Figures;
use ledger::{State, states};
use refusals::Refusal;

// The bytes that have room for any text.
pub const TEXT_ROOM: usize = 640;

// What is printed of a book that nothing refused: the state after its last point, and its figures.
fn settled(ending: Result<State, Refusal>) -> Result<(State, Figures), Refusal>
    ensures refusal { number_told result ≡ (closed_after (ending_told ending)).refusal }
    ensures settled { IfOk result (λ settled. (settled.0 ≡ (ending_told ending).state) × (settled.1 ≡ (closed_after (ending_told ending)).figures)) }
{
    let figures = book::settling::close(ending)?;
    Ok((ending?, figures))
}

// The one line of a refused book, or the lines of a settled one.
pub fn text_of(ending: Result<State, Refusal>) -> ArrayVec<u8, TEXT_ROOM>
    ensures { result.items ≡ text_of (ending_told ending) }
{
    let mut text = ArrayVec::new();
    match settled(ending) {
        Ok((state, figures)) => {
            figure_lines::put_figures(&mut text, state.head, states::slot_totals(state), figures);
        }
        Err(refusal) => lines::put_line(&mut text, b"refused ", refusal.number()),
    }
    text
}
