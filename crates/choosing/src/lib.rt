// Choosing four days. A day is its number back; the window sum of day k stands at place k - 1 of `sums`.
#![tactic(auto)]

ghost use Rattle.std.specs.Prelude.{◌≡◌, ◌<◌, ◌+◌, ◌-◌, ℕ, List, IsTrue, MatchOption, eqb, get_or, drop, length, map};
ghost use Rattle.arrayvec.specs.ArrayVec.{array_vec_len};
ghost use Rattle.numbers.specs.Lists.{any};
ghost use Rattle.numbers.specs.Slots.{days_used};
ghost use Rattle.calendar.specs.Eligible.{of_day};
ghost use Rattle.choosing.specs.Choosing.{round_days, round, standing, highest, with_day, returned, with_returned, lowest, used, is_few, chosen};
ghost use Rattle.choosing.specs.Days.{WindowSums, days_from, not_among, InHand};

mod candidates;

use arrayvec::ArrayVec;
use candidates::Candidate;
use numbers::{DAYS_BACK, DAYS_USED};
use readings::UsedDays;

// The days of a round.
const ROUND_DAYS: usize = 5;

// The days in hand, nearest first.
type Round = ArrayVec<Candidate, ROUND_DAYS>;

// The days that the rounds dropped, nearest first.
type Dropped = ArrayVec<Candidate, DAYS_BACK>;

// Of five days those stay that a round does not drop. All its tests use the same five sums together.
fn keep(days: &mut Round)
    requires { array_vec_len days.old ≡ round_days }
    ensures { (w : ℕ → ℕ) (five : List ℕ) → InHand w five days.old.items → InHand w (round w five) days.new.items }
{
    let five = days.first_chunk::<ROUND_DAYS>().unwrap();
    let all: u64 = five.iter().map(|day| day.sum).sum();
    days.retain(|day| all <= day.sum * 20);
}

// Rounds over the thirty days, until one drops no day or the days run out. A round goes on with the days that the one before it left.
// Document 01 names the form: nested loops, and a label that leaves both.
fn walk(eligible: [bool; DAYS_BACK], sums: &[u64]) -> Round
    requires { WindowSums sums.now }
    ensures { InHand (of_day sums.now) (standing (of_day sums.now) (days_from 1 eligible)) result.items }
{
    let mut days = Round::new();
    let mut k: usize = 0;
    'walk: loop {
        while !days.is_full() {
            if DAYS_BACK <= k {
                break 'walk;
            }
            if eligible[k] {
                days.push(Candidate {
                    back: (k + 1) as u8,
                    sum: sums[k],
                });
            }
            k += 1;
        }
        keep(&mut days);
        let none_dropped = days.is_full();
        if none_dropped {
            break 'walk;
        }
    }
    days
}

// Whether a day is in hand.
fn is_in_hand(days: &Round, back: u8) -> bool
    ensures { result ≡ any (eqb back) (map (λ day. day.back) days.now.items) }
{
    days.iter().any(|day| back == day.back)
}

// The eligible days that do not stand. Where fewer than five do, the rounds dropped them.
fn not_standing(days: &Round, eligible: [bool; DAYS_BACK], sums: &[u64]) -> Dropped
    requires { WindowSums sums.now }
    ensures { (stand : List ℕ) → InHand (of_day sums.now) stand days.now.items
        → InHand (of_day sums.now) (not_among stand (days_from 1 eligible)) result.items }
{
    let mut dropped = Dropped::new();
    for k in 0..DAYS_BACK {
        let back = (k + 1) as u8;
        if eligible[k] && !is_in_hand(days, back) {
            dropped.push(Candidate { back, sum: sums[k] });
        }
    }
    dropped
}

// The day with the highest window sum; among equals the nearest.
fn highest_of(days: &Dropped) -> Candidate
    requires { 0 < array_vec_len days.now }
    ensures { (w : ℕ → ℕ) (some : List ℕ) → InHand w some days.now.items
        → (result.back ≡ highest w (get_or some 0 0) (drop 1 some)) × (result.sum ≡ w result.back) }
{
    let high = days
        .iter()
        .copied()
        .reduce(|high, day| if high.sum < day.sum { day } else { high });
    high.unwrap()
}

// One day more in hand, nearest first.
fn put_back(days: &mut Round, day: Candidate)
    requires { array_vec_len days.old < round_days }
    ensures more { array_vec_len days.new ≡ array_vec_len days.old + 1 }
    ensures in_hand { (w : ℕ → ℕ) (some : List ℕ) → InHand w some days.old.items → day.sum ≡ w day.back
        → InHand w (with_day day.back some) days.new.items }
{
    let farther = days.iter().position(|other| day.back < other.back);
    let place = farther.unwrap_or(days.len());
    days.insert(place, day);
}

// Days return one at a time, highest window sum first, until four stand.
fn return_days(days: &mut Round, mut dropped: Dropped)
    ensures { (w : ℕ → ℕ) (some others : List ℕ) → InHand w some days.old.items → InHand w others dropped.items
        → InHand w (returned w (days_used - length some) others some) days.new.items }
{
    while days.len() < DAYS_USED && !dropped.is_empty() {
        let high = highest_of(&dropped);
        dropped.retain(|day| day.back != high.back);
        put_back(days, high);
    }
}

// Where fewer than four days stand, dropped ones return. Where four do, no day is looked at again.
fn give_back(days: &mut Round, eligible: [bool; DAYS_BACK], sums: &[u64])
    requires { WindowSums sums.now }
    ensures { InHand (of_day sums.now) (standing (of_day sums.now) (days_from 1 eligible)) days.old.items
        → InHand (of_day sums.now) (with_returned (of_day sums.now) (days_from 1 eligible)) days.new.items }
{
    if DAYS_USED <= days.len() {
        return;
    }
    let dropped = not_standing(days, eligible, sums);
    return_days(days, dropped);
}

// The day with the lowest window sum; among equals the farthest, which `min_by_key` would say by an order alone.
fn lowest_of(days: &Round) -> u8
    requires { 0 < array_vec_len days.now }
    ensures { (w : ℕ → ℕ) (some : List ℕ) → InHand w some days.now.items → result ≡ lowest w (get_or some 0 0) (drop 1 some) }
{
    let low = days
        .iter()
        .copied()
        .reduce(|low, day| if day.sum <= low.sum { day } else { low });
    low.unwrap().back
}

// Five standing: the lowest window sum goes.
fn drop_lowest_of_five(days: &mut Round)
    ensures { (w : ℕ → ℕ) (some : List ℕ) → InHand w some days.old.items → InHand w (used w some) days.new.items }
{
    if days.is_full() {
        let low = lowest_of(days);
        days.retain(|day| day.back != low);
    }
}

// Of the eligible days the four that are used; none where fewer than four are eligible. The calendar gives one of the lists and the
// readings the other, each whole.
pub fn choose(eligible: [bool; DAYS_BACK], sums: &[u64]) -> Option<UsedDays>
    requires { WindowSums sums.now }
    ensures { let days = chosen (of_day sums.now) (days_from 1 eligible) in
        MatchOption result (IsTrue (is_few days)) (λ four. four.back ≡ days) }
{
    let mut days = walk(eligible, sums);
    give_back(&mut days, eligible, sums);
    drop_lowest_of_five(&mut days);
    let four = days.first_chunk()?;
    Some(UsedDays {
        back: four.map(|day| day.back),
    })
}
