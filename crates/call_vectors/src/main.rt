// Reads single calls of the ledger on standard input, makes each and prints its whole answer on a line.
// docs/VECTORS.md has the form of both.
#![tactic(auto)]

mod calls;
mod faults;
mod parts;
mod text;

use calls::Calls;
use faults::Fault;
use std::io::Read;

// A proved loop has to end: it goes on to a number that no input reaches.
fn answer_calls<P: Print, R: Read>(mut calls: Calls<P, R>) -> Result<(), Fault> {
    for _ in 0..u64::MAX {
        match calls.next()? {
            Some(kind) => calls.make(kind)?,
            None => break,
        }
    }
    Ok(())
}

fn main(rt: HostRuntime) {
    let calls = Calls {
        rt: &rt,
        source: &mut rt.stdin(),
    };
    if let Err(fault) = answer_calls(calls) {
        let _ = rt.eprintln(fault);
    }
}
