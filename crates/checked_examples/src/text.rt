// The text of an example's line.
use std::fmt;

// The value that is due, with where it comes from.
#[derive(Drop)]
pub enum Due<'a> {
    // What the paper says.
    Paper(&'a str),
    // What was worked out by the paper's rules or formula.
    ByHand(&'a str),
}

impl fmt::Display for Due<'_> {
    fn fmt<W: fmt::Write>(&self, f: &mut fmt::Formatter<W>) -> fmt::Result {
        match self {
            Due::Paper(value) => write!(f, "(paper {value})"),
            Due::ByHand(value) => write!(f, "(by hand {value})"),
        }
    }
}

// What was asked, what was answered, and what is due.
pub fn line(
    rt: &impl Print,
    asked: impl fmt::Display + Drop,
    answer: impl fmt::Display + Drop,
    due: Due<'_>,
) {
    let _ = println!(rt; "{asked}: {answer} {due}");
}
