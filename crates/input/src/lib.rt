// What a reader gives, such as standard input.
#![tactic(auto)]

ghost use Rattle.std.specs.Prelude.{◌≡◌, ◌≤◌, ◌<◌, IfOk, IfErr, length};

use std::io;
use std::io::Read;

// A read that failed, and how many bytes had come before it.
#[derive(Clone, Copy)]
pub struct Unread {
    pub count: usize,
    pub error: io::Error,
}

// Fills the lent bytes from the front, and answers how many came: fewer than there is room for where the input ends.
pub fn fill<R: Read>(source: &mut R, bytes: &mut [u8]) -> Result<usize, Unread>
    ensures count_in_bounds { IfOk result (λ count. count ≤ length bytes.old) }
    ensures unread_in_bounds { IfErr result (λ unread. unread.count ≤ length bytes.old) }
    ensures bytes_len_unchanged { length bytes.new ≡ length bytes.old }
{
    let mut done: usize = 0;
    // No index is counted here: each read says how many more came.
    while done < bytes.len() {
        match source.read(&mut bytes[done..]) {
            Ok(0) => break,
            Ok(more) => done += more,
            Err(error) => return Err(Unread { count: done, error }),
        }
    }
    Ok(done)
}
