// Writing a head with its calendar, or a point, at the front of the lent bytes.
#![tactic(auto)]

ghost use Rattle.std.specs.Prelude.{◌≡◌, ◌+◌, ◌<◌, ◌≤◌, length};
ghost use Rattle.refusals.specs.Told.{number_told};
ghost use Rattle.numbers.specs.Placing.{at_front};
ghost use Rattle.fields.specs.Fields.{header_length, written};
ghost use Rattle.writing.specs.Writing.{head_writing_refusal, head_writing_out};
ghost use Rattle.points.specs.Points.{with_index};
ghost use Rattle.points.specs.Told.{refusal_told};
ghost use Rattle.writing.specs.Writing.{value_writing_refusal, point_writing_answer, point_writing_out};

use fields::HEADER_LENGTH;
use points::Point;
use refusals::Refusal;

// The bytes of a head's field, and those with the calendar's field behind it.
const HEAD_FIELD: usize = 20;

const HEAD_ROOM: usize = 53;

// A field over the first of the lent bytes.
fn put_field(tag: u8, value: &[u8], out: &mut [u8])
    requires { (length value.now < 65536) × (header_length + length value.now ≤ length out.old) }
    ensures { out.new ≡ at_front (written tag value.now) out.old }
{
    let size = value.len();
    out[0] = tag;
    out[1..HEADER_LENGTH].copy_from_slice(&numbers::length_bytes(size as u16));
    out[HEADER_LENGTH..HEADER_LENGTH + size].copy_from_slice(value);
}

// A head with its calendar: 53 bytes.
#[tactic(auto, using(refusals::proofs::Exits::exits, crate::proofs::Storing::head_answers))]
pub fn write_head(head: &[u8], calendar: &[u8], out: &mut [u8]) -> Result<(), Refusal>
    ensures value { number_told result ≡ head_writing_refusal head.now calendar.now (length out.old) }
    ensures out_after { out.new ≡ head_writing_out head.now calendar.now out.old }
{
    heads::opening_refusal(head, calendar)?;
    if out.len() < HEAD_ROOM {
        return Err(Refusal::LentBytes);
    }
    put_field(heads::HEAD_TAG, head, out);
    put_field(heads::CALENDAR_TAG, calendar, &mut out[HEAD_FIELD..]);
    Ok(())
}

// What is refused in a point before room is looked for, 11, 12, 14, 16 or 50, 51 or 52, with the index of a reading.
#[tactic(auto, unfolding(crate::specs::Writing::value_writing_refusal))]
fn point_refusal(tag: u8, value: &[u8]) -> Result<(), Refusal>
    ensures { refusal_told result ≡ with_index (value_writing_refusal tag value.now) tag value.now }
{
    let point = Point::new(tag, value)?;
    if !numbers::is_number(&point.number()) {
        return Err(Refusal::PointNumber);
    }
    point.value_refusal()
}

// A point's field. A refusal of a reading which is too large has its index.
#[tactic(auto, unfolding(crate::specs::Writing::value_writing_refusal, crate::specs::Writing::point_writing_refusal, crate::specs::Writing::point_writing_out))]
pub fn write_point(tag: u8, value: &[u8], out: &mut [u8]) -> Result<(), Refusal>
    ensures answer { refusal_told result ≡ point_writing_answer tag value.now (length out.old) }
    ensures lent { out.new ≡ point_writing_out tag value.now out.old }
{
    point_refusal(tag, value)?;
    if out.len() < HEADER_LENGTH + value.len() {
        return Err(Refusal::LentBytes);
    }
    put_field(tag, value, out);
    Ok(())
}
