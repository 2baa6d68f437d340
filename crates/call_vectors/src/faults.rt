// What ends the program before its input does.
use std::fmt;

#[derive(Drop)]
pub enum Fault {
    // A call that the input cuts, or that has no form of docs/VECTORS.md.
    Cut,
    Unread,
    Unwritten,
}

impl fmt::Display for Fault {
    fn fmt<W: fmt::Write>(&self, f: &mut fmt::Formatter<W>) -> fmt::Result {
        match self {
            Fault::Cut => write!(f, "call_vectors: a call is cut or has no such form"),
            Fault::Unread => write!(f, "call_vectors: standard input cannot be read"),
            Fault::Unwritten => write!(f, "call_vectors: standard output cannot be written"),
        }
    }
}
