// The sheet of a half-year report, as the program report prints it. Why its lines are put and not written by `write!`: lines.
#![tactic(auto, using(lines::proofs::Decimals::decimal_is, lines::proofs::Decimals::signed_is, std::proofs::lemmas::Grind::common_steps))]

ghost use Rattle.std.specs.Prelude.{◌≡◌, ◌+◌, ◌≤◌, ◌++◌};
ghost use Rattle.arrayvec.specs.ArrayVec.{array_vec_len};
ghost use Rattle.refusals.specs.Told.{number_of, place_of};
ghost use Rattle.records.specs.Told.{report_told};
ghost use Rattle.sheet.specs.Sheet.{test_lines, capacity_lines, sums_lines, refused_line, sheet_of, sheet_text};

use arrayvec::ArrayVec;
use records::Sums;
use refusals::Refusal;

// The bytes that have room for any sheet.
pub const SHEET_ROOM: usize = 256;

fn put_test_lines<const ROOM: usize>(text: &mut ArrayVec<u8, ROOM>, sums: Sums)
    requires { array_vec_len text.old + 115 ≤ ROOM }
    ensures bytes { text.new.items ≡ text.old.items ++ test_lines sums }
    ensures bound { array_vec_len text.new ≤ array_vec_len text.old + 115 }
{
    lines::put_line(text, b"points ", sums.points);
    lines::put_line(text, b"total ", sums.total);
    lines::put_line(text, b"settled ", sums.settled);
    lines::put_line(text, b"shortfall ", sums.shortfall);
}

fn put_capacity_lines<const ROOM: usize>(text: &mut ArrayVec<u8, ROOM>, sums: Sums)
    requires { array_vec_len text.old + 85 ≤ ROOM }
    ensures { text.new.items ≡ text.old.items ++ capacity_lines sums }
{
    lines::put_line(text, b"expected ", sums.expected);
    lines::put_line(text, b"kept ", sums.kept);
    lines::put_line(text, b"surplus ", sums.surplus);
}

fn put_sums<const ROOM: usize>(text: &mut ArrayVec<u8, ROOM>, sums: Sums)
    requires { array_vec_len text.old + 229 ≤ ROOM }
    ensures { text.new.items ≡ text.old.items ++ sums_lines sums }
{
    lines::put_line(text, b"records ", sums.records);
    put_test_lines(text, sums);
    put_capacity_lines(text, sums);
}

// The number, and the place that a refusal of a record carries.
fn put_refusal<const ROOM: usize>(text: &mut ArrayVec<u8, ROOM>, refusal: Refusal)
    requires { array_vec_len text.old + 30 ≤ ROOM }
    ensures { text.new.items ≡ text.old.items ++ refused_line (number_of refusal) (place_of refusal) }
{
    lines::put(text, b"refused ");
    lines::put_number(text, refusal.number());
    if let Refusal::RecordRule(_) = refusal {
        lines::put(text, b" ");
        lines::put_number(text, refusal.place());
    }
    lines::put(text, b"\n");
}

fn sheet_of(report: Result<Sums, Refusal>) -> ArrayVec<u8, SHEET_ROOM>
    ensures { result.items ≡ sheet_of (report_told report) }
{
    let mut text = ArrayVec::new();
    match report {
        Ok(sums) => put_sums(&mut text, sums),
        Err(refusal) => put_refusal(&mut text, refusal),
    }
    text
}

// The sheet over the records that lie in the lent bytes.
pub fn text_of(bytes: &[u8]) -> ArrayVec<u8, SHEET_ROOM>
    ensures { result.items ≡ sheet_text bytes.now }
{
    sheet_of(records::report_of(bytes))
}
