// Fields of a book, and cutting one off the front of it.
#![tactic(auto)]

pub mod cutting;

// The bytes of a field's header: a tag, and a length of two bytes.
pub const HEADER_LENGTH: usize = 3;

// Which field is due at a place of the book.
#[derive(Clone, Copy, Debug, PartialEq, Eq)]
pub enum Due {
    Head,
    Calendar,
    Point,
}

// A field that is cut off: its tag, its value, and what is left of the book behind it.
#[derive(Clone, Copy, Debug)]
pub struct Cut<'a> {
    pub tag: u8,
    pub value: &'a [u8],
    pub behind: &'a [u8],
}
