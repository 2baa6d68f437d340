// The four days of a consumer, and its baseline on them: the days end in two arrays of sums, and from these the baseline is worked out.
#![tactic(auto)]

ghost use Rattle.std.specs.Prelude.{◌≡◌, ◌+◌, ◌*◌, ◌-◌, ◌<◌, ◌≤◌, IsTrue, MatchOption};
ghost use Rattle.numbers.specs.Lists.{run, sum};
ghost use Rattle.numbers.specs.Slots.{days_back, days_used, window_slots};
ghost use Rattle.readings.specs.Readings.{most_reading, reading};
ghost use Rattle.choosing.specs.Choosing.{is_few};
ghost use Rattle.choosing.specs.Days.{AtMost};
ghost use Rattle.baseline.specs.Baseline.{chosen_days, day_sums, baseline, baselines_on};
ghost use Rattle.baseline.specs.Consumers.{Tested, Sums};

use calendar::eligible_days;
use choosing::choose;
use numbers::{DAYS_BACK, WINDOW_SLOTS};
use readings::{UsedDays, Window};
use std::array;

// A consumer whose readings passed their tests, and the window of the test day.
#[derive(Clone, Copy)]
pub struct Consumer<'a> {
    pub window: Window<'a>,
    pub ghost tested: { Tested window.readings.now window.slot },
}

// Six sums together.
fn sum_of_six(sums: [u64; WINDOW_SLOTS]) -> u64
    requires { AtMost (days_used * most_reading) sums }
    ensures total { result ≡ sum sums }
    ensures most { result ≤ window_slots * (days_used * most_reading) }
{
    sums.iter().sum()
}

// One slot: six times its four-day sum and four times the test day's earlier use, less the earlier sums together; 0 where that is
// negative.
fn baseline_of(sum: u64, earlier: u64, less: u64) -> u64
    requires { (sum ≤ days_used * most_reading) × (earlier ≤ window_slots * most_reading) }
    ensures { result ≡ 6 * sum + 4 * earlier - less }
{
    let gross = 6 * sum + 4 * earlier;
    gross.saturating_sub(less)
}

// The baseline in each window slot, from the window sums and the earlier sums over the four days and from the test day's earlier use.
fn baselines_of(sums: [[u64; WINDOW_SLOTS]; 2], earlier: u64) -> [u64; WINDOW_SLOTS]
    requires { Sums sums × (earlier ≤ window_slots * most_reading) }
    ensures { result ≡ run (baseline sums earlier) 0 window_slots }
{
    let [window, earlier_sums] = sums;
    let less = sum_of_six(earlier_sums);
    array::from_fn(|j| baseline_of(window[j], earlier, less))
}

impl<'a> Consumer<'a> {
    // The four days, for the count of the test day; none where there are fewer.
    pub fn chosen_days(&self, test: u32, marks: [u8; DAYS_BACK]) -> Option<UsedDays>
        requires { days_back ≤ test }
        ensures { let days = chosen_days test marks self.now.window.readings.now self.now.window.slot in
            MatchOption result (IsTrue (is_few days)) (λ four. four.back ≡ days) }
    {
        let eligible = eligible_days(test, marks);
        let sums = self.window.window_sums();
        choose(eligible, &sums)
    }

    // The test day's use in slot j of the window.
    pub fn used(&self, j: usize) -> u32
        requires { j < window_slots }
        ensures value { result ≡ reading self.now.window.readings.now 0 (self.now.window.slot + j) }
        ensures small { result ≤ most_reading }
    {
        self.window.reading(0, j)
    }

    // What the days become for the baseline: six window sums and six earlier sums, each over the four days. Document 01 names the form, an
    // array of two arrays by value.
    fn day_sums(&self, days: UsedDays) -> [[u64; WINDOW_SLOTS]; 2]
        ensures { result ≡ day_sums self.now.window.readings.now days.back self.now.window.slot }
    {
        let window = self.window.slot_sums(days);
        let earlier = self.window.earlier().slot_sums(days);
        [window, earlier]
    }

    // The baseline on four days, in each window slot and in twenty-fourths of a Wh. Here the days of the choice become two arrays of six
    // sums, and the baseline is handed these and nothing else of the days back.
    pub fn baselines_on(&self, days: UsedDays) -> [u64; WINDOW_SLOTS]
        ensures { result ≡ baselines_on self.now.window.readings.now days.back self.now.window.slot }
    {
        let sums = self.day_sums(days);
        let earlier = self.window.earlier_use();
        baselines_of(sums, earlier)
    }
}
