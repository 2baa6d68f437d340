// The days that adding tells of a high-voltage consumer. CR 2 and CR 5 give no figures: they are worked out by their rules, by hand.
use crate::text::{self, Due};
use crate::{adding, handed};
use ledger::told;
use numbers::WINDOW_SLOTS;
use points::{CONSUMER_LENGTH, Kind};

// The days of an adding under thirty equal marks, and those worked out.
fn line(rt: &impl Print, asked: &str, mark: u8, value: &[u8], due: &str) {
    let mut places = [0; WINDOW_SLOTS];
    let state = handed::opened(mark);
    let answer = ledger::add(state, Kind::Consumer.tag(), value, &mut places);
    let [first, second, third, fourth] = told::added_state(state, answer).days;
    let days = format_args!("{first} {second} {third} {fourth}");
    text::line(rt, format_args!("days {asked}"), days, Due::ByHand(due));
}

// The results of the adding whose days were told.
fn adding_it(rt: &impl Print, value: &[u8], due: &str) {
    let state = handed::opened(0);
    let due = Due::ByHand(due);
    adding::line(rt, "adding it", state, Kind::Consumer.tag(), value, due);
}

// Of the nearest five, 1, 2, 5, 6 and 7, all sums are equal: the farthest goes. A refused adding tells none.
fn equal_days(rt: &impl Print) {
    let mut value = [0; CONSUMER_LENGTH];
    handed::put_consumer(&mut value, 1200, 240);
    line(rt, "of use 240", 0, &value, "1 2 5 6");
    line(rt, "on thirty marks of 1", 1, &value, "0 0 0 0");
}

// Five sums of 29,280: day 6 is dropped (1,200 × 20 = 24,000). Of 1, 2, 5, 7 and 8 day 2 goes, and the four left have equal readings.
fn low_days(rt: &impl Print) {
    let mut value = [0; CONSUMER_LENGTH];
    handed::put_consumer(&mut value, 1200, 240);
    handed::put_low_days(&mut value);
    line(
        rt,
        "with a sum of 6480 on day 2, 1200 on day 6",
        0,
        &value,
        "1 5 7 8",
    );
    adding_it(rt, &value, "1000 in each");
}

// CR 5. Each round drops four of the low days, until days 1 and 30 alone are left: two return, day 23, which is the highest, and day 2,
// the nearest of the others. A four-day sum of 1,231 a slot: (6 × 1,231 − 24 × 240) × 10,000 ÷ 230,400 is 70.57.
fn returning_days(rt: &impl Print) {
    let mut value = [0; CONSUMER_LENGTH];
    handed::put_consumer(&mut value, 1200, 240);
    handed::put_one_high_day(&mut value);
    line(
        rt,
        "of 1200 on day 1, 11 on day 23, 10 on every other",
        0,
        &value,
        "1 2 23 30",
    );
    adding_it(rt, &value, "70 in each");
}

pub fn examples(rt: &impl Print) {
    equal_days(rt);
    low_days(rt);
    returning_days(rt);
}
