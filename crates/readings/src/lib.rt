// A consumer's readings, of four bytes each: the test day's 48, then those of days 1 to 30 back.
#![tactic(auto)]

ghost use Rattle.std.specs.Prelude.{◌≡◌, ◌<◌, ◌≤◌, ◌+◌, ◌-◌, ◌*◌, ◌%◌, length, IsTrue, All, slice_index};
ghost use Rattle.numbers.specs.Slots.{days_back, window_slots};
ghost use Rattle.numbers.specs.Words.{word32};
ghost use Rattle.readings.specs.Readings.{earlier_by, large_place, most_reading, reading};
ghost use Rattle.readings.specs.Readings.{window_sum, window_sums, slot_sum, slot_sums, earlier_use, Back, HasWindow};

use numbers::{DAYS_BACK, DAYS_USED, SLOTS_OF_DAY, WINDOW_SLOTS, word32_at};
use std::array;

// Wh
const MOST_READING: u32 = 1_000_000_000;

// The bytes of a reading.
pub const READING_LENGTH: usize = 4;

// Readings that are looked at together.
const PART: usize = 48;

// The earlier slots begin so many slots before the window.
pub const EARLIER_BY: usize = 10;

// The days whose readings make a consumer's baseline, as numbers back.
#[derive(Clone, Copy)]
pub struct UsedDays {
    pub back: [u8; DAYS_USED],
    pub ghost near: { Back back },
}

// A consumer's readings, and the first slot of a window within the day.
#[derive(Clone, Copy)]
pub struct Window<'a> {
    pub readings: &'a [u8],
    pub slot: usize,
    pub ghost within: { HasWindow readings.now slot },
}

// Whether the high byte of each reading is below 32, and each so within the limit. The compiler lays four over each other at a time.
fn are_small(readings: &[[u8; READING_LENGTH]]) -> bool
    ensures { IsTrue result → All (λ reading. slice_index reading 0 % 256 < 32) readings.now }
{
    let all = readings
        .iter()
        .fold(0, |all, reading| all | u32::from_le_bytes(*reading));
    all % 256 < 32
}

// Whether each reading is within the limit. No place is told, so that the compiler has no way out of the loop to make.
fn are_within(readings: &[[u8; READING_LENGTH]]) -> bool
    ensures { IsTrue result → All (λ reading. word32 reading 0 ≤ most_reading) readings.now }
{
    readings.iter().fold(true, |within, reading| {
        within & (word32_at(reading, 0) <= MOST_READING)
    })
}

// The first of some readings that is too large, counted from 0. They are looked at one by one only where not all are small.
fn large_among(readings: &[u8]) -> Option<usize>
    ensures { result ≡ large_place readings.now }
{
    let (readings, _) = readings.as_chunks::<READING_LENGTH>();
    if are_small(readings) {
        return None;
    }
    if are_within(readings) {
        return None;
    }
    readings
        .iter()
        .position(|reading| MOST_READING < word32_at(reading, 0))
}

// The same part by part, so that of many readings those beside one that is not small are looked at one by one, and no others.
fn large_by_parts(readings: &[u8]) -> Option<usize>
    ensures { result ≡ large_place readings.now }
{
    let mut passed: usize = 0;
    let mut left = readings;
    while let Some((part, behind)) = left.split_at_checked(PART * READING_LENGTH) {
        if let Some(place) = large_among(part) {
            return Some(passed + place);
        }
        passed += PART;
        left = behind;
    }
    large_among(left).map(|place| passed + place)
}

// The first reading that is too large, counted from 0. Of a meter's readings all are small as a rule.
pub fn first_large(readings: &[u8]) -> Option<usize>
    ensures { result ≡ large_place readings.now }
{
    if are_small(readings.as_chunks::<READING_LENGTH>().0) {
        return None;
    }
    large_by_parts(readings)
}

impl<'a> Window<'a> {
    // The earlier slots, as a window.
    pub fn earlier(&self) -> Window<'a>
        requires { earlier_by ≤ self.now.slot }
        ensures same { result.readings.now ≡ self.now.readings.now }
        ensures before { result.slot ≡ self.now.slot - earlier_by }
    {
        Window {
            readings: self.readings,
            slot: self.slot - EARLIER_BY,
        }
    }

    // A day's reading in slot j of the window. One at a time: `map` over the four days does not hand on that each lies within thirty.
    pub fn reading(&self, day: usize, j: usize) -> u32
        requires { (day ≤ days_back) × (j < window_slots) }
        ensures { result ≡ reading self.now.readings.now day (self.now.slot + j) }
    {
        word32_at(
            self.readings,
            (SLOTS_OF_DAY * day + self.slot + j) * READING_LENGTH,
        )
    }

    // The sum of a day's six readings.
    fn window_sum(&self, day: usize) -> u64
        requires { day ≤ days_back }
        ensures { result ≡ window_sum self.now.readings.now self.now.slot day }
    {
        (0..WINDOW_SLOTS)
            .map(|j| u64::from(self.reading(day, j)))
            .sum()
    }

    // The window sums of days 1 to 30 back.
    pub fn window_sums(&self) -> [u64; DAYS_BACK]
        ensures { result ≡ window_sums self.now.readings.now self.now.slot }
    {
        array::from_fn(|k| self.window_sum(k + 1))
    }

    // The test day's six earlier readings together.
    pub fn earlier_use(&self) -> u64
        requires { earlier_by ≤ self.now.slot }
        ensures { result ≡ earlier_use self.now.readings.now self.now.slot }
    {
        self.earlier().window_sum(0)
    }

    // Slot j over four days.
    fn slot_sum(&self, days: UsedDays, j: usize) -> u64
        requires { j < window_slots }
        ensures { result ≡ slot_sum self.now.readings.now days.back (self.now.slot + j) }
    {
        days.back
            .iter()
            .map(|day| u64::from(self.reading(usize::from(*day), j)))
            .sum()
    }

    // The six slots, each over four days.
    pub fn slot_sums(&self, days: UsedDays) -> [u64; WINDOW_SLOTS]
        ensures { result ≡ slot_sums self.now.readings.now days.back self.now.slot }
    {
        array::from_fn(|j| self.slot_sum(days, j))
    }
}
