// The calls: each is read, made and answered by a line.
use crate::faults::Fault;
use crate::parts;
use crate::text::{FiguresText, Lent, Spaced, StateText};
use ledger::told;
use refusals::{index_told, number_told};
use std::fmt;
use std::io::Read;

// Most bytes of a part: a consumer's field has 5,978, and wrong lengths can be tried too. There is no heap: each part is read into a room
// of as many.
const MOST_BYTES: usize = 6000;

// Most places that are lent to an adding, and the bytes that say what they hold.
const MOST_PLACES: usize = 8;

const PLACES_LENGTH: usize = 64;

// The kinds of calls, by the numbers that docs/VECTORS.md gives them.
#[derive(Clone, Copy, Debug, PartialEq, Eq)]
pub enum Kind {
    Opening,
    Adding,
    Closing,
    WritingHead,
    WritingPoint,
}

impl TryFrom<u8> for Kind {
    type Error = Fault;

    fn try_from(kind: u8) -> Result<Kind, Fault> {
        match kind {
            1 => Ok(Kind::Opening),
            2 => Ok(Kind::Adding),
            3 => Ok(Kind::Closing),
            4 => Ok(Kind::WritingHead),
            5 => Ok(Kind::WritingPoint),
            _ => Err(Fault::Cut),
        }
    }
}

// Where calls come from, and where they are answered.
#[derive(Drop)]
pub struct Calls<'a, P: Print, R: Read> {
    pub rt: &'a P,
    pub source: &'a mut R,
}

impl<P: Print, R: Read> Calls<'_, P, R> {
    // The kind of the call that comes next; none where the input has ended.
    pub fn next(&mut self) -> Result<Option<Kind>, Fault> {
        let mut kind = [0u8; 1];
        match input::fill(self.source, &mut kind) {
            Ok(0) => Ok(None),
            Ok(_) => Ok(Some(Kind::try_from(kind[0])?)),
            Err(_) => Err(Fault::Unread),
        }
    }

    // Reads the call behind its kind, makes it and answers it.
    pub fn make(&mut self, kind: Kind) -> Result<(), Fault> {
        match kind {
            Kind::Opening => self.opening(),
            Kind::Adding => self.adding(),
            Kind::Closing => self.closing(),
            Kind::WritingHead => self.writing_head(),
            Kind::WritingPoint => self.writing_point(),
        }
    }

    // Prints an answer, which is a line.
    fn answer(&self, line: impl fmt::Display + Drop) -> Result<(), Fault> {
        self.rt.println(line).map_err(|_| Fault::Unwritten)
    }

    fn opening(&mut self) -> Result<(), Fault> {
        let mut head_room = [0; MOST_BYTES];
        let head = parts::read_part(self.source, &mut head_room)?;
        let mut calendar_room = [0; MOST_BYTES];
        let calendar = parts::read_part(self.source, &mut calendar_room)?;
        let opened = ledger::open(head, calendar);
        let refusal = number_told(opened);
        let state = StateText(told::opened_state(opened));
        self.answer(format_args!("opening {refusal} {state}"))
    }

    fn adding(&mut self) -> Result<(), Fault> {
        let state = parts::read_state(self.source)?;
        let [tag, lent]: [u8; 2] = parts::read_array(self.source)?;
        let count = usize::from(lent);
        if MOST_PLACES < count {
            return Err(Fault::Cut);
        }
        // As many of the places are lent as the call says.
        let mut bytes = [0; PLACES_LENGTH];
        parts::read_bytes(self.source, &mut bytes[..count * 8])?;
        let mut held: [i64; MOST_PLACES] = parts::signed_list(&bytes);
        let places = &mut held[..count];
        let mut room = [0; MOST_BYTES];
        let value = parts::read_part(self.source, &mut room)?;
        let answer = ledger::add(state, tag, value, places);
        let refusal = number_told(answer);
        let index = index_told(answer);
        let added = told::added_state(state, answer);
        let after = StateText(added.state);
        let days = Spaced(&added.days);
        let places = Spaced(places);
        self.answer(format_args!(
            "adding {refusal} index {index} {after} days{days} places{places}"
        ))
    }

    fn closing(&mut self) -> Result<(), Fault> {
        let closed = ledger::close(parts::read_state(self.source)?);
        let refusal = number_told(closed);
        let figures = FiguresText(told::closed_figures(closed));
        self.answer(format_args!("closing {refusal} {figures}"))
    }

    fn writing_head(&mut self) -> Result<(), Fault> {
        let mut head_room = [0; MOST_BYTES];
        let head = parts::read_part(self.source, &mut head_room)?;
        let mut calendar_room = [0; MOST_BYTES];
        let calendar = parts::read_part(self.source, &mut calendar_room)?;
        let mut lent_room = [0; MOST_BYTES];
        let lent = parts::read_part(self.source, &mut lent_room)?;
        let refusal = number_told(writing::write_head(head, calendar, lent));
        let lent = Lent(lent);
        self.answer(format_args!("writing head {refusal} {lent}"))
    }

    fn writing_point(&mut self) -> Result<(), Fault> {
        let [tag]: [u8; 1] = parts::read_array(self.source)?;
        let mut value_room = [0; MOST_BYTES];
        let value = parts::read_part(self.source, &mut value_room)?;
        let mut lent_room = [0; MOST_BYTES];
        let lent = parts::read_part(self.source, &mut lent_room)?;
        let answer = writing::write_point(tag, value, lent);
        let refusal = number_told(answer);
        let index = index_told(answer);
        let lent = Lent(lent);
        self.answer(format_args!("writing point {refusal} index {index} {lent}"))
    }
}
