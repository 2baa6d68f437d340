// Whole numbers with a sign.
#![tactic(auto)]

ghost use Rattle.std.specs.Prelude.{◌≡◌, ℕ, ◌+◌, ◌^◌, ◌≤◌, ◌<◌, pos, nat_abs, ◌+ℤ◌, ◌-ℤ◌, length, get_or};
ghost use Rattle.numbers.specs.Words.{bytes_of};
ghost use Rattle.integers.specs.Integers.{floor_div, or_zero, sum_ℤ, most_summand, twos_complement, signed_of, signed_word};

use numbers::WINDOW_SLOTS;

// z ÷ d, rounded toward minus infinity.
pub fn floor_div(z: i64, d: u32) -> i64
    requires { 0 < d }
    ensures { result ≡ floor_div z d }
{
    z.div_euclid(i64::from(d))
}

// A number without its sign.
pub fn size_of(z: i64) -> u64
    ensures { result ≡ nat_abs z }
{
    z.unsigned_abs()
}

// The number, or 0 where it is negative.
pub fn or_zero(z: i64) -> u64
    ensures { result ≡ or_zero z }
{
    u64::try_from(z).unwrap_or(0)
}

// The sum of two numbers whose sizes leave room for it.
pub fn add_bounded(a: i64, b: i64) -> i64
    requires { nat_abs a + nat_abs b < 2 ^ 63 }
    ensures { result ≡ a +ℤ b }
{
    a + b
}

// a − b, which may be negative.
pub fn minus(a: u64, b: u64) -> i64
    requires { a + b < 2 ^ 63 }
    ensures { result ≡ pos a -ℤ pos b }
{
    (a as i64) - (b as i64)
}

// The six slot totals together. A loop: std's sum of signed numbers asks for a bound on each run.
pub fn total_of(totals: [i64; WINDOW_SLOTS]) -> i64
    requires { (i : ℕ) → nat_abs (get_or totals i (pos 0)) ≤ most_summand }
    ensures { result ≡ sum_ℤ totals }
{
    let mut total = 0;
    for slot in totals {
        total += slot;
    }
    total
}

// Eight bytes in two's complement, high byte first. One a type, as numbers' words.
pub fn word_bytes(z: i64) -> [u8; 8]
    ensures { result ≡ bytes_of 8 (twos_complement z) }
{
    numbers::eight_bytes(z.cast_unsigned())
}

// The number that a word stands for in two's complement.
pub fn signed_of(word: u64) -> i64
    ensures { result ≡ signed_of word }
{
    word.cast_signed()
}

// The number with a sign in the eight bytes at a place. One a type, as numbers' words.
pub fn signed_word_at(bytes: &[u8], at: usize) -> i64
    requires { at + 8 ≤ length bytes.now }
    ensures { result ≡ signed_word bytes.now at }
{
    signed_of(numbers::word64_at(bytes, at))
}
