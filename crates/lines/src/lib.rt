// Words, numbers and lines, put behind the text so far. Not by `write!` and `{:02}`: their contracts say what was written only where they
// answer `Ok`, and not when they do.
#![tactic(auto)]

ghost use Rattle.std.specs.Prelude.{◌≡◌, ◌+◌, ◌≤◌, ◌++◌, length};
ghost use Rattle.arrayvec.specs.ArrayVec.{array_vec_len};
ghost use Rattle.lines.specs.Numerals.{most_digits, two_digits};
ghost use Rattle.lines.specs.Line.{line_of};

pub mod placed;

use arrayvec::ArrayVec;
use itoa::{Buffer, Integer};

// A word, for which there is room.
pub fn put<const ROOM: usize>(text: &mut ArrayVec<u8, ROOM>, word: &[u8])
    requires { array_vec_len text.old + length word.now ≤ ROOM }
    ensures bytes { text.new.items ≡ text.old.items ++ word.now }
    ensures len { array_vec_len text.new ≡ array_vec_len text.old + length word.now }
{
    text.try_extend_from_slice(word).unwrap();
}

// A number, as `{}` prints it.
pub fn put_number<I: Integer, const ROOM: usize>(text: &mut ArrayVec<u8, ROOM>, number: I)
    requires { array_vec_len text.old + I.MAX_STR_LEN ≤ ROOM }
    ensures bytes { text.new.items ≡ text.old.items ++ I.text number }
    ensures bound { array_vec_len text.new ≤ array_vec_len text.old + I.MAX_STR_LEN }
{
    let mut digits = Buffer::new();
    put(text, digits.format(number).as_bytes());
}

// A month or a day: always two digits.
#[tactic(auto, using(crate::proofs::Decimals::with_zero, crate::proofs::Decimals::without_zero, std::proofs::lemmas::Grind::common_steps))]
pub fn put_two_digits<const ROOM: usize>(text: &mut ArrayVec<u8, ROOM>, number: u8)
    requires { array_vec_len text.old + (1 + most_digits) ≤ ROOM }
    ensures bytes { text.new.items ≡ text.old.items ++ two_digits number }
    ensures bound { array_vec_len text.new ≤ array_vec_len text.old + (1 + most_digits) }
{
    if number < 10 {
        put(text, b"0");
    }
    put_number(text, number);
}

// A name, a number, the line's end.
pub fn put_line<I: Integer, const ROOM: usize>(
    text: &mut ArrayVec<u8, ROOM>,
    name: &[u8],
    number: I,
)
    requires { array_vec_len text.old + (length name.now + (I.MAX_STR_LEN + 1)) ≤ ROOM }
    ensures bytes { text.new.items ≡ text.old.items ++ line_of name.now (I.text number) }
    ensures bound { array_vec_len text.new ≤ array_vec_len text.old + (length name.now + (I.MAX_STR_LEN + 1)) }
{
    put(text, name);
    put_number(text, number);
    put(text, b"\n");
}
