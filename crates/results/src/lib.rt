// Slot results, by kind of point: the six results of a value that passed its tests, and the days that are told.
#![tactic(auto)]

ghost use Rattle.std.specs.Prelude.{◌≡◌, ◌≤◌, length};
ghost use Rattle.numbers.specs.Lists.{run};
ghost use Rattle.numbers.specs.Slots.{window_slots};
ghost use Rattle.readings.specs.Readings.{most_reading};
ghost use Rattle.choosing.specs.Days.{AtMost};
ghost use Rattle.baseline.specs.Consumers.{most_consumer_baseline};
ghost use Rattle.heads.specs.Limits.{most_loss, most_baseline, most_share};
ghost use Rattle.points.specs.Points.{consumer, generator_length, mixed_firing_length, kind_of, baseline_of, share_of};
ghost use Rattle.points.specs.Told.{tag_of};
ghost use Rattle.results.specs.SlotResults.{consumer_quotient, generator_quotient, mixed_firing_quotient, rounded};
ghost use Rattle.results.specs.SlotResults.{generator_quotients, mixed_firing_quotients};
ghost use Rattle.results.specs.Steps.{Passed, consumer_slot, all_found, found_of};

use baseline::Consumer;
use heads::Head;
use numbers::{DAYS_BACK, DAYS_USED, WINDOW_SLOTS};
use points::{
    BASELINE_AT, CLASS_AT, CONSUMER_READINGS_AT, Class, GENERATOR_READINGS_AT, Kind,
    MIXED_FIRING_READINGS_AT, Point, SHARE_AT,
};
use readings::{READING_LENGTH, Window};
use std::array;

// The six results and, of a consumer, its four days; zeros of any other point, as CR 2 names them.
#[derive(Clone, Copy)]
pub struct Found {
    pub found: [i64; WINDOW_SLOTS],
    // numbers back, nearest first
    pub days: [u8; DAYS_USED],
}

// One slot of a consumer: multiplied without a sign and subtracted once, then divided.
fn consumer_result(loss: u16, base: u64, used: u32) -> i64
    requires { (loss ≤ most_loss) × (base ≤ most_consumer_baseline) × (used ≤ most_reading) }
    ensures { result ≡ rounded (consumer_quotient loss base used) }
{
    let above = integers::minus(10000 * base, 240000 * u64::from(used));
    integers::floor_div(above, 24 * (10000 - u32::from(loss)))
}

// One slot of a generator.
fn generator_result(baseline: u32, metered: u32) -> i64
    requires { baseline ≤ most_baseline }
    ensures { result ≡ rounded (generator_quotient baseline metered) }
{
    integers::minus(u64::from(metered), 500 * u64::from(baseline))
}

// One slot of a mixed-firing plant: the two readings are added first, so that one division is rounded.
fn mixed_firing_result(share: u16, outside: u32, inside: u32) -> i64
    requires { share ≤ most_share }
    ensures { result ≡ rounded (mixed_firing_quotient share outside inside) }
{
    let together = u64::from(outside) + u64::from(inside);
    let counted = together * (1000 - u64::from(share));
    integers::floor_div(counted as i64, 1000)
}

// The six results of a consumer, from its baseline in the window slots.
fn consumer_results(
    loss: u16,
    slots: [u64; WINDOW_SLOTS],
    consumer: &Consumer,
) -> [i64; WINDOW_SLOTS]
    requires { (loss ≤ most_loss) × AtMost most_consumer_baseline slots }
    ensures { result ≡ run (consumer_slot loss slots consumer.now.window.readings.now consumer.now.window.slot) 0 window_slots }
{
    array::from_fn(|j| consumer_result(loss, slots[j], consumer.used(j)))
}

// A consumer: its days, the baseline on them, then the results; none where fewer than four days are eligible. Head and marks are the
// state's.
fn consumer_found(head: Head, marks: [u8; DAYS_BACK], value: &[u8]) -> Option<Found>
    requires { Passed head marks consumer value.now }
    ensures { result ≡ found_of head marks consumer value.now }
{
    let test = calendar::day_count(head.year, head.month, head.day);
    let consumer = Consumer {
        window: Window {
            readings: &value[CONSUMER_READINGS_AT..],
            slot: usize::from(head.slot),
        },
    };
    let days = consumer.chosen_days(test, marks)?;
    let slots = consumer.baselines_on(days);
    let class = Class::try_from(value[CLASS_AT]).unwrap();
    let losses = head.losses;
    let loss = class.loss(losses);
    let found = consumer_results(loss, slots, &consumer);
    let told = days.back;
    Some(Found { found, days: told })
}

// A generator: whatever the head and the calendar. A function a kind, as the paper has it; a third one around both would be no plainer.
fn generator_found(value: &[u8]) -> Found
    requires { (length value.now ≡ generator_length) × (baseline_of value.now ≤ most_baseline) }
    ensures { result ≡ all_found (generator_quotients value.now) }
{
    let baseline = numbers::word32_at(value, BASELINE_AT);
    let found = array::from_fn(|j| {
        let metered = numbers::word32_at(value, GENERATOR_READINGS_AT + j * READING_LENGTH);
        generator_result(baseline, metered)
    });
    Found {
        found,
        days: [0; DAYS_USED],
    }
}

// A mixed-firing plant: the readings inside the tariff follow the six outside it.
fn mixed_firing_found(value: &[u8]) -> Found
    requires { (length value.now ≡ mixed_firing_length) × (share_of value.now ≤ most_share) }
    ensures { result ≡ all_found (mixed_firing_quotients value.now) }
{
    let share = numbers::word16_at(value, SHARE_AT);
    let found = array::from_fn(|j| {
        let outside = numbers::word32_at(value, MIXED_FIRING_READINGS_AT + j * READING_LENGTH);
        let inside = numbers::word32_at(
            value,
            MIXED_FIRING_READINGS_AT + (WINDOW_SLOTS + j) * READING_LENGTH,
        );
        mixed_firing_result(share, outside, inside)
    });
    Found {
        found,
        days: [0; DAYS_USED],
    }
}

// The results of a point, by its kind; none of a consumer with fewer than four eligible days.
#[tactic(auto, unfolding(crate::specs::Steps::found_of, crate::specs::SlotResults::quotients))]
pub fn results_of(head: Head, marks: [u8; DAYS_BACK], point: Point) -> Option<Found>
    requires { Passed head marks (kind_of (tag_of point.kind)) point.value.now }
    ensures { result ≡ found_of head marks (kind_of (tag_of point.entry.kind)) point.entry.value.now }
{
    match point.kind {
        Kind::Consumer => consumer_found(head, marks, point.value),
        Kind::Generator => Some(generator_found(point.value)),
        Kind::MixedFiring => Some(mixed_firing_found(point.value)),
    }
}
