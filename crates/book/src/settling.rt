// The whole book: reading it field by field, and the 64 result bytes. Document 01 names let .. else for the field answer,
// where `?` would do.
ghost use Rattle.std.specs.Prelude.{◌≡◌, length, flat_map};
ghost use Rattle.refusals.specs.Told.{number_told};
ghost use Rattle.ledger.specs.Told.{closed_told};
ghost use Rattle.book.specs.Reading.{read_points, read_book};
ghost use Rattle.book.specs.Endings.{points_ending, book_ending, closed_after};
ghost use Rattle.book.specs.Settling.{result_bytes, settling_refusal, settling_result};
ghost use Rattle.book.specs.Told.{ending_told};

use fields::{Due, cutting};
use figures::Figures;
use integers::word_bytes;
use ledger::State;
use numbers::{WINDOW_SLOTS, eight_bytes};
use refusals::Refusal;

// The length of a result: eight words of eight bytes.
const RESULT_LENGTH: usize = 64;

// As many points as the head says, and nothing behind them: the state after the last one.
#[tactic(auto, using(crate::proofs::Endings::point_steps))]
fn read_points(opened: State, book: &[u8]) -> Result<State, Refusal>
    ensures { ending_told result ≡ points_ending (read_points opened.head.count opened book.now) }
{
    let mut state = opened;
    let mut left = book;
    for _ in 0..opened.head.count {
        let field = cutting::cut(Due::Point, left);
        let Ok(point) = field else {
            return Err(field.unwrap_err());
        };
        let mut places = [0i64; WINDOW_SLOTS];
        // Not by `?`, which copies the state once more.
        match ledger::add(state, point.tag, point.value, &mut places) {
            Ok(added) => state = added.state,
            Err(refusal) => return Err(refusal),
        }
        left = point.behind;
    }
    if !left.is_empty() {
        return Err(Refusal::BytesAfter);
    }
    Ok(state)
}

// A whole book: the state after the last point.
#[tactic(auto, using(crate::proofs::Endings::book_steps))]
fn read(book: &[u8]) -> Result<State, Refusal>
    ensures { ending_told result ≡ book_ending (read_book book.now) }
{
    let field = cutting::cut(Due::Head, book);
    let Ok(head) = field else {
        return Err(field.unwrap_err());
    };
    let field = cutting::cut(Due::Calendar, head.behind);
    let Ok(calendar) = field else {
        return Err(field.unwrap_err());
    };
    let state = ledger::open(head.value, calendar.value)?;
    read_points(state, calendar.behind)
}

// The closing after a reading: the reading's refusal, or what closing answers.
pub fn close(ending: Result<State, Refusal>) -> Result<Figures, Refusal>
    ensures { closed_told result ≡ closed_after (ending_told ending) }
{
    ledger::close(ending?)
}

// The eight words of a result, high byte first.
fn words_of(figures: Figures) -> [[u8; 8]; 8]
    ensures { flat_map (λ word. word) result ≡ result_bytes figures }
{
    [
        word_bytes(figures.total),
        word_bytes(figures.settled),
        eight_bytes(figures.shortfall),
        eight_bytes(figures.expected),
        eight_bytes(figures.kept),
        eight_bytes(figures.surplus),
        eight_bytes(u64::from(figures.points)),
        eight_bytes(u64::from(figures.bid)),
    ]
}

// Whole book: its refusal, or its figures in the 64 lent bytes.
pub fn settle(book: &[u8], res: &mut [u8]) -> Result<(), Refusal>
    ensures value { number_told result ≡ settling_refusal book.now (length res.old) }
    ensures res_after { res.new ≡ settling_result book.now res.old }
{
    if res.len() != RESULT_LENGTH {
        return Err(Refusal::LentBytes);
    }
    let figures = close(read(book))?;
    res.copy_from_slice(words_of(figures).as_flattened());
    Ok(())
}
