// The parts of a call, from standard input.
ghost use Rattle.std.specs.Prelude.{◌≡◌, ◌*◌, ◌≤◌, IfOk, length};
ghost use Rattle.numbers.specs.Lists.{run};
ghost use Rattle.call_vectors.specs.Parts.{state_length, signed_in, head_in, state_in};

use crate::faults::Fault;
use heads::Head;
use ledger::State;
use std::array;
use std::io::Read;

// How many bytes a state has, and where the parts behind its head begin (specs/Parts).
const STATE_LENGTH: usize = 123;

const MARKS_AT: usize = 19;

const TAKEN_AT: usize = 49;

const TOTALS_AT: usize = 53;

const LAST_AT: usize = 101;

// Fills the bytes in the middle of a call.
pub fn read_bytes<R: Read>(source: &mut R, bytes: &mut [u8]) -> Result<(), Fault>
    ensures { length bytes.new ≡ length bytes.old }
{
    let due = bytes.len();
    match input::fill(source, bytes) {
        Ok(count) if count == due => Ok(()),
        Ok(_) => Err(Fault::Cut),
        Err(_) => Err(Fault::Unread),
    }
}

// As many bytes as the array has.
pub fn read_array<const N: usize, R: Read>(source: &mut R) -> Result<[u8; N], Fault> {
    let mut bytes = [0; N];
    read_bytes(source, &mut bytes)?;
    Ok(bytes)
}

// A length of two bytes and as many bytes, which go to the front of the room; a part with no room is cut.
pub fn read_part<'a, R: Read>(source: &mut R, room: &'a mut [u8]) -> Result<&'a mut [u8], Fault>
    ensures { IfOk result (λ part. length part.now ≤ length room.old) }
{
    let length = usize::from(u16::from_be_bytes(read_array(source)?));
    if room.len() < length {
        return Err(Fault::Cut);
    }
    let part = &mut room[..length];
    read_bytes(source, part)?;
    Ok(part)
}

// Signed numbers of eight bytes each, as many as the array has.
pub fn signed_list<const N: usize>(bytes: &[u8]) -> [i64; N]
    requires { N * 8 ≤ length bytes.now }
    ensures { result ≡ run (signed_in bytes.now) 0 N }
{
    array::from_fn(|i| integers::signed_word_at(bytes, i * 8))
}

// The head in a state's bytes; its count has four bytes.
fn head_of(bytes: &[u8]) -> Head
    requires { length bytes.now ≡ state_length }
    ensures { result ≡ head_in bytes.now }
{
    heads::head_with(numbers::word32_at(bytes, heads::COUNT_AT), bytes)
}

// The state in a state's bytes, whatever they hold.
pub fn state_of(bytes: &[u8]) -> State
    requires { length bytes.now ≡ state_length }
    ensures { result ≡ state_in bytes.now }
{
    let head = head_of(bytes);
    let marks = numbers::array_of(&bytes[MARKS_AT..TAKEN_AT]);
    let points = numbers::word32_at(bytes, TAKEN_AT);
    let totals = signed_list(&bytes[TOTALS_AT..LAST_AT]);
    let last = points::number_of(&bytes[LAST_AT..STATE_LENGTH]);
    State {
        head,
        marks,
        points,
        totals,
        last,
    }
}

// The state before a call.
pub fn read_state<R: Read>(source: &mut R) -> Result<State, Fault> {
    let bytes: [u8; STATE_LENGTH] = read_array(source)?;
    Ok(state_of(&bytes))
}
