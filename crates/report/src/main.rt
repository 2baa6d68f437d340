// The half-year report over the result records on standard input.
#![tactic(auto)]

ghost use Rattle.std.specs.Prelude.{◌≡◌, ◌*◌, ◌<◌, IfOk, length};
ghost use Rattle.records.specs.Records.{record_length};
ghost use Rattle.records.specs.Report.{most_records};
ghost use Rattle.sheet.specs.Filled.{IsSheetOf};

use arrayvec::ArrayVec;
use records::{MOST_RECORDS, RECORD_LENGTH};
use sheet::SHEET_ROOM;
use std::fmt;
use std::io::Read;

// As many records as a report is of, and one byte more.
const ROOM: usize = RECORD_LENGTH * MOST_RECORDS + 1;

// What keeps the sheet from being printed.
#[derive(Drop)]
enum Fault {
    Unread,
    Unwritten,
}

impl fmt::Display for Fault {
    fn fmt<W: fmt::Write>(&self, f: &mut fmt::Formatter<W>) -> fmt::Result {
        match self {
            Fault::Unread => write!(f, "report: standard input cannot be read"),
            Fault::Unwritten => write!(f, "report: standard output cannot be written"),
        }
    }
}

// The sheet over what the reader gives. An input that goes on fills the slice, and is refused by its length.
fn sheet_from<R: Read>(source: &mut R, bytes: &mut [u8]) -> Result<ArrayVec<u8, SHEET_ROOM>, Fault>
    requires { record_length * most_records < length bytes.old }
    ensures { IfOk result (λ sheet. IsSheetOf bytes.new sheet.items) }
{
    let count = input::fill(source, bytes).map_err(|_| Fault::Unread)?;
    Ok(sheet::text_of(&bytes[..count]))
}

// Writes the sheet in one go.
fn report(rt: &impl Print, source: &mut impl Read) -> Result<(), Fault> {
    let mut bytes = [0u8; ROOM];
    let sheet = sheet_from(source, &mut bytes)?;
    rt.write_all(sheet.as_slice()).map_err(|_| Fault::Unwritten)
}

fn main(rt: HostRuntime) {
    if let Err(fault) = report(&rt, &mut rt.stdin()) {
        let _ = rt.eprintln(fault);
    }
}
