// The lines of the figures at a place of lent bytes, which keep their values before and behind it.
ghost use Rattle.std.specs.Prelude.{◌+◌, ◌≤◌, length};
ghost use Rattle.numbers.specs.Placing.{Placed};
ghost use Rattle.figure_lines.specs.FigureLines.{figure_lines};

use arrayvec::ArrayVec;
use figures::Figures;
use heads::Head;
use numbers::WINDOW_SLOTS;

// The bytes that have room for the lines of any figures.
const LINES_ROOM: usize = 594;

// Answers the place behind the lines.
pub fn put_figures(
    head: Head,
    totals: [i64; WINDOW_SLOTS],
    figures: Figures,
    at: usize,
    out: &mut [u8],
) -> usize
    requires { at + 594 ≤ length out.old }
    ensures { Placed (figure_lines head totals figures) at out.old result out.new }
{
    let mut text = ArrayVec::<u8, LINES_ROOM>::new();
    crate::put_figures(&mut text, head, totals, figures);
    lines::placed::put(text.as_slice(), at, out)
}
