// The values that the examples hand on (document 01, 'The test book').
ghost use Rattle.std.specs.Prelude.{◌≡◌, ◌*◌, ◌≤◌, ◌<◌, length};
ghost use Rattle.numbers.specs.Slots.{days_back};
ghost use Rattle.readings.specs.Readings.{reading_count};
ghost use Rattle.points.specs.Points.{consumer_length, generator_length, mixed_firing_length};

use heads::HEAD_LENGTH;
use ledger::{State, told};
use numbers::{DAYS_BACK, NUMBER_LENGTH, SLOTS_OF_DAY, WINDOW_SLOTS};
use points::{
    BASELINE_AT, CLASS_AT, CONSUMER_READINGS_AT, GENERATOR_READINGS_AT, MIXED_FIRING_READINGS_AT,
    SHARE_AT,
};

// The readings of a consumer: the test day's and those of the thirty days back.
const CONSUMER_READINGS: usize = (DAYS_BACK + 1) * SLOTS_OF_DAY;

// Where the readings of a mixed-firing plant inside the tariff begin.
const INSIDE_AT: usize = 48;

// A head of the year 2024: losses 700, 400 and 200, contract 1,000 kW.
pub fn head(month: u8, day: u8, slot: u8, count: u16) -> [u8; HEAD_LENGTH]
    ensures { length result ≡ 17 }
{
    let mut head = [0; HEAD_LENGTH];
    head[0..2].copy_from_slice(&2024u16.to_be_bytes());
    head[2..5].copy_from_slice(&[month, day, slot]);
    head[5..7].copy_from_slice(&700u16.to_be_bytes());
    head[7..9].copy_from_slice(&400u16.to_be_bytes());
    head[9..11].copy_from_slice(&200u16.to_be_bytes());
    head[11..15].copy_from_slice(&1000u32.to_be_bytes());
    head[15..17].copy_from_slice(&count.to_be_bytes());
    head
}

// The state of a test on 2024-08-07, s 26, with one point due and the same mark on all thirty days.
pub fn opened(mark: u8) -> State {
    told::opened_state(ledger::open(&head(8, 7, 26, 1), &[mark; DAYS_BACK]))
}

// The readings, of four bytes each, from the front of the part.
fn put_readings(part: &mut [u8], readings: &[u32])
    requires { length readings.now * 4 ≤ length part.old }
{
    for (i, reading) in readings.iter().enumerate() {
        part[i * 4..i * 4 + 4].copy_from_slice(&reading.to_be_bytes());
    }
}

// Values are put into lent bytes, so that one of a wrong length is refused where it is asked for.

// A high-voltage consumer with the number 1111111111111111111111, as have the other points: 1,200 in every slot of the test day and the
// thirty days back, except the earlier slots 16 to 21 and the window slots 26 to 31 of the test day.
pub fn put_consumer(value: &mut [u8], earlier: u32, used: u32)
    requires { length value.old ≡ consumer_length }
{
    value[..NUMBER_LENGTH].fill(b'1');
    value[CLASS_AT] = 2;
    put_readings(
        &mut value[CONSUMER_READINGS_AT..],
        &[1200; CONSUMER_READINGS],
    );
    put_readings(&mut value[87..111], &[earlier; WINDOW_SLOTS]);
    put_readings(&mut value[127..151], &[used; WINDOW_SLOTS]);
}

// The same reading in each window slot of a day back.
fn put_window(value: &mut [u8], back: usize, reading: u32)
    requires { (length value.old ≡ consumer_length) × (back ≤ days_back) }
{
    let at = CONSUMER_READINGS_AT + (back * SLOTS_OF_DAY + 26) * 4;
    put_readings(&mut value[at..at + 24], &[reading; WINDOW_SLOTS]);
}

// Other window readings of a consumer: 1,080 on day 2 back, 200 on day 6.
pub fn put_low_days(value: &mut [u8])
    requires { length value.old ≡ consumer_length }
{
    put_window(value, 2, 1080);
    put_window(value, 6, 200);
}

// Window readings of a consumer's days back: 1,200 on day 1, 11 on day 23, 10 on every other.
pub fn put_one_high_day(value: &mut [u8])
    requires { length value.old ≡ consumer_length }
{
    for back in 1..=DAYS_BACK {
        put_window(value, back, 10);
    }
    put_window(value, 1, 1200);
    put_window(value, 23, 11);
}

// A consumer's reading one Wh above the limit.
pub fn put_large(value: &mut [u8], index: usize)
    requires { (length value.old ≡ consumer_length) × (index < reading_count) }
{
    let at = CONSUMER_READINGS_AT + index * 4;
    put_readings(&mut value[at..at + 4], &[1000000001]);
}

// A generator: its baseline in kW, the first reading and the same reading in the five other slots.
pub fn put_generator(value: &mut [u8], baseline: u32, first: u32, others: u32)
    requires { length value.old ≡ generator_length }
{
    value[..NUMBER_LENGTH].fill(b'1');
    value[BASELINE_AT..GENERATOR_READINGS_AT].copy_from_slice(&baseline.to_be_bytes());
    let mut readings = [others; WINDOW_SLOTS];
    readings[0] = first;
    put_readings(&mut value[GENERATOR_READINGS_AT..], &readings);
}

// A mixed-firing plant: its share in tenths of a percent, and the same readings in all six slots.
pub fn put_mixed_firing(value: &mut [u8], share: u16, outside: u32, inside: u32)
    requires { length value.old ≡ mixed_firing_length }
{
    value[..NUMBER_LENGTH].fill(b'1');
    value[SHARE_AT..MIXED_FIRING_READINGS_AT].copy_from_slice(&share.to_be_bytes());
    put_readings(
        &mut value[MIXED_FIRING_READINGS_AT..INSIDE_AT],
        &[outside; WINDOW_SLOTS],
    );
    put_readings(&mut value[INSIDE_AT..], &[inside; WINDOW_SLOTS]);
}
