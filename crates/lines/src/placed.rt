// Words, numbers and lines at a place of lent bytes, which keep their values before and behind it. Each answers the place behind what it
// put.
ghost use Rattle.std.specs.Prelude.{◌+◌, ◌≤◌, length};
ghost use Rattle.numbers.specs.Placing.{Placed};
ghost use Rattle.lines.specs.Numerals.{most_digits, two_digits};
ghost use Rattle.lines.specs.Line.{line_of};

use arrayvec::ArrayVec;
use itoa::{Buffer, Integer};

// The most digits of a number of 64 bits, and one more.
const DIGITS_ROOM: usize = 21;

// A word.
pub fn put(text: &[u8], at: usize, out: &mut [u8]) -> usize
    requires { at + length text.now ≤ length out.old }
    ensures { Placed text.now at out.old result out.new }
{
    let end = at + text.len();
    out[at..end].copy_from_slice(text);
    end
}

// A number, as `{}` prints it.
pub fn put_number<I: Integer>(number: I, at: usize, out: &mut [u8]) -> usize
    requires { at + I.MAX_STR_LEN ≤ length out.old }
    ensures placed { Placed (I.text number) at out.old result out.new }
    ensures bound { result ≤ at + I.MAX_STR_LEN }
{
    let mut digits = Buffer::new();
    put(digits.format(number).as_bytes(), at, out)
}

// A month or a day: always two digits.
pub fn put_two_digits(number: u8, at: usize, out: &mut [u8]) -> usize
    requires { at + (1 + most_digits) ≤ length out.old }
    ensures placed { Placed (two_digits number) at out.old result out.new }
    ensures bound { result ≤ at + (1 + most_digits) }
{
    let mut text = ArrayVec::<u8, DIGITS_ROOM>::new();
    crate::put_two_digits(&mut text, number);
    put(text.as_slice(), at, out)
}

// A name, a number, the line's end.
pub fn put_line<I: Integer>(name: &[u8], number: I, at: usize, out: &mut [u8]) -> usize
    requires { at + (length name.now + (I.MAX_STR_LEN + 1)) ≤ length out.old }
    ensures placed { Placed (line_of name.now (I.text number)) at out.old result out.new }
    ensures bound { result ≤ at + (length name.now + (I.MAX_STR_LEN + 1)) }
{
    let named = put(name, at, out);
    let told = put_number(number, named, out);
    put(b"\n", told, out)
}
