// The lines of the figures of a settled book: its date, its points, the slot totals and the closing figures. Why they are put and not
// written by `write!`: lines.
#![tactic(auto, using(lines::proofs::Decimals::decimal_is, std::proofs::lemmas::Grind::common_steps))]

ghost use Rattle.std.specs.Prelude.{◌≡◌, ◌+◌, ◌≤◌, ◌++◌};
ghost use Rattle.arrayvec.specs.ArrayVec.{array_vec_len};
ghost use Rattle.figure_lines.specs.FigureLines.{dashed, date, date_line, slot_lines, settled_lines, bid_line};
ghost use Rattle.figure_lines.specs.FigureLines.{capacity_lines, figure_lines};

pub mod placed;

use arrayvec::ArrayVec;
use figures::Figures;
use heads::Head;
use numbers::WINDOW_SLOTS;

fn put_dashed<const ROOM: usize>(text: &mut ArrayVec<u8, ROOM>, number: u8)
    requires { array_vec_len text.old + 22 ≤ ROOM }
    ensures bytes { text.new.items ≡ text.old.items ++ dashed number }
    ensures bound { array_vec_len text.new ≤ array_vec_len text.old + 22 }
{
    lines::put(text, b"-");
    lines::put_two_digits(text, number);
}

fn put_date<const ROOM: usize>(text: &mut ArrayVec<u8, ROOM>, head: Head)
    requires { array_vec_len text.old + 64 ≤ ROOM }
    ensures bytes { text.new.items ≡ text.old.items ++ date head }
    ensures bound { array_vec_len text.new ≤ array_vec_len text.old + 64 }
{
    lines::put_number(text, head.year);
    put_dashed(text, head.month);
    put_dashed(text, head.day);
}

fn put_date_line<const ROOM: usize>(text: &mut ArrayVec<u8, ROOM>, head: Head)
    requires { array_vec_len text.old + 96 ≤ ROOM }
    ensures bytes { text.new.items ≡ text.old.items ++ date_line head }
    ensures bound { array_vec_len text.new ≤ array_vec_len text.old + 96 }
{
    lines::put(text, b"date ");
    put_date(text, head);
    lines::put_line(text, b" slot ", head.slot);
}

fn put_slots<const ROOM: usize>(text: &mut ArrayVec<u8, ROOM>, totals: [i64; WINDOW_SLOTS])
    requires { array_vec_len text.old + 288 ≤ ROOM }
    ensures bytes { text.new.items ≡ text.old.items ++ slot_lines 1 totals }
    ensures bound { array_vec_len text.new ≤ array_vec_len text.old + 288 }
{
    for (i, total) in totals.iter().enumerate() {
        lines::put(text, b"slot ");
        lines::put_number(text, i + 1);
        lines::put_line(text, b" ", *total);
    }
}

fn put_settled_lines<const ROOM: usize>(text: &mut ArrayVec<u8, ROOM>, figures: Figures)
    requires { array_vec_len text.old + 89 ≤ ROOM }
    ensures bytes { text.new.items ≡ text.old.items ++ settled_lines figures }
    ensures bound { array_vec_len text.new ≤ array_vec_len text.old + 89 }
{
    lines::put_line(text, b"total ", figures.total);
    lines::put_line(text, b"settled ", figures.settled);
    lines::put_line(text, b"shortfall ", figures.shortfall);
}

fn put_bid<const ROOM: usize>(text: &mut ArrayVec<u8, ROOM>, bid: bool)
    requires { array_vec_len text.old + 8 ≤ ROOM }
    ensures { text.new.items ≡ text.old.items ++ bid_line bid }
{
    lines::put(text, if bid { b"bid yes\n" } else { b"bid no\n" });
}

fn put_capacity_lines<const ROOM: usize>(text: &mut ArrayVec<u8, ROOM>, figures: Figures)
    requires { array_vec_len text.old + 93 ≤ ROOM }
    ensures { text.new.items ≡ text.old.items ++ capacity_lines figures }
{
    lines::put_line(text, b"expected ", figures.expected);
    lines::put_line(text, b"kept ", figures.kept);
    lines::put_line(text, b"surplus ", figures.surplus);
    put_bid(text, figures.bid);
}

// All of them.
pub fn put_figures<const ROOM: usize>(
    text: &mut ArrayVec<u8, ROOM>,
    head: Head,
    totals: [i64; WINDOW_SLOTS],
    figures: Figures,
)
    requires { array_vec_len text.old + 594 ≤ ROOM }
    ensures { text.new.items ≡ text.old.items ++ figure_lines head totals figures }
{
    put_date_line(text, head);
    lines::put_line(text, b"points ", figures.points);
    put_slots(text, totals);
    put_settled_lines(text, figures);
    put_capacity_lines(text, figures);
}
