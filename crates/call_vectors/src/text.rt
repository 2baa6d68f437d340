// The text of an answer's parts.
use figures::Figures;
use heads::Head;
use ledger::State;
use std::fmt;

// Bytes, two hexadecimal digits each.
#[derive(Drop)]
struct Hex<'a>(&'a [u8]);

impl fmt::Display for Hex<'_> {
    fn fmt<W: fmt::Write>(&self, f: &mut fmt::Formatter<W>) -> fmt::Result {
        for byte in self.0 {
            write!(f, "{byte:02x}")?;
        }
        Ok(())
    }
}

// Lent bytes: with none of them there is nothing behind the word.
#[derive(Drop)]
pub struct Lent<'a>(pub &'a [u8]);

impl fmt::Display for Lent<'_> {
    fn fmt<W: fmt::Write>(&self, f: &mut fmt::Formatter<W>) -> fmt::Result {
        match self.0 {
            [] => write!(f, "lent"),
            bytes => write!(f, "lent {}", Hex(bytes)),
        }
    }
}

// Numbers, with a space before each.
#[derive(Drop)]
pub struct Spaced<'a, T>(pub &'a [T]);

impl<T: fmt::Display> fmt::Display for Spaced<'_, T> {
    fn fmt<W: fmt::Write>(&self, f: &mut fmt::Formatter<W>) -> fmt::Result {
        for number in self.0 {
            write!(f, " {number}")?;
        }
        Ok(())
    }
}

// Every field of a state.
#[derive(Drop)]
pub struct StateText(pub State);

impl fmt::Display for StateText {
    fn fmt<W: fmt::Write>(&self, f: &mut fmt::Formatter<W>) -> fmt::Result {
        let State {
            head,
            marks,
            points,
            last,
            ..
        } = self.0;
        let Head {
            year,
            month,
            day,
            slot,
            losses,
            contract,
            count,
        } = head;
        let losses = Spaced(losses.as_slice());
        let marks = Hex(marks.as_slice());
        let totals = ledger::states::slot_totals(self.0);
        let totals = Spaced(totals.as_slice());
        let last = Hex(last.as_slice());
        write!(
            f,
            "year {year} month {month} day {day} slot {slot} losses{losses}"
        )?;
        write!(f, " contract {contract} count {count} marks {marks}")?;
        write!(f, " points {points} totals{totals} last {last}")
    }
}

// Every figure.
#[derive(Drop)]
pub struct FiguresText(pub Figures);

impl fmt::Display for FiguresText {
    fn fmt<W: fmt::Write>(&self, f: &mut fmt::Formatter<W>) -> fmt::Result {
        let Figures {
            total,
            settled,
            shortfall,
            expected,
            kept,
            surplus,
            points,
            bid,
        } = self.0;
        let bid = if bid { "yes" } else { "no" };
        write!(f, "total {total} settled {settled} shortfall {shortfall}")?;
        write!(f, " expected {expected} kept {kept} surplus {surplus}")?;
        write!(f, " points {points} bid {bid}")
    }
}
