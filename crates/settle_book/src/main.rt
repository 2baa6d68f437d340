// Settles the test book on standard input, holding one field at a time, and prints its figures or its refusal.
#![tactic(auto)]

ghost use Rattle.std.specs.Prelude.{IfOk};
ghost use Rattle.book.specs.Told.{ending_told};
ghost use Rattle.feeding.specs.Coming.{EndsWhole};

use feeding::Progress;
use ledger::State;
use points::CONSUMER_LENGTH;
use refusals::Refusal;
use std::fmt;
use std::io::Read;

// What keeps the text of the book from being printed.
#[derive(Drop)]
enum Fault {
    Unread,
    Unwritten,
}

impl fmt::Display for Fault {
    fn fmt<W: fmt::Write>(&self, f: &mut fmt::Formatter<W>) -> fmt::Result {
        match self {
            Fault::Unread => write!(f, "settle_book: standard input cannot be read"),
            Fault::Unwritten => write!(f, "settle_book: standard output cannot be written"),
        }
    }
}

// Writes the text of a whole book in one go; of what was not fed whole there is none.
fn report(rt: &impl Print, ending: Result<State, Refusal>) -> Result<(), Fault>
    requires { EndsWhole (ending_told ending) }
{
    let text = printing::text_of(ending);
    rt.write_all(text.as_slice()).map_err(|_| Fault::Unwritten)
}

// Feeds what the reader gives, until the book has ended: how its reading ends.
fn feed_book<R: Read>(source: &mut R) -> Result<Result<State, Refusal>, Fault>
    ensures { IfOk result (λ ending. EndsWhole (ending_told ending)) }
{
    // no more than the value of a consumer is due at a time
    let mut buffer = [0u8; CONSUMER_LENGTH];
    let mut progress = Progress::start();
    for _ in 0..feeding::most_feedings() {
        let due = progress.wait.due();
        let count = input::fill(source, &mut buffer[..due]).map_err(|_| Fault::Unread)?;
        match progress.feed(&buffer[..count]) {
            Ok(after) => progress = after,
            Err(refusal) => return Ok(Err(refusal)),
        }
        if progress.wait.is_over() {
            return Ok(Ok(progress.state));
        }
    }
    Ok(Ok(progress.state))
}

fn settle_book(rt: &impl Print, source: &mut impl Read) -> Result<(), Fault> {
    report(rt, feed_book(source)?)
}

fn main(rt: HostRuntime) {
    if let Err(fault) = settle_book(&rt, &mut rt.stdin()) {
        let _ = rt.eprintln(fault);
    }
}
