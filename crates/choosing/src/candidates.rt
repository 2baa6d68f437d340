// Days that a round may drop.
ghost use Rattle.std.specs.Prelude.{◌≤◌, ◌*◌};
ghost use Rattle.numbers.specs.Slots.{window_slots};
ghost use Rattle.readings.specs.Readings.{most_reading};

// A day, as its number back, with its window sum.
#[derive(Clone, Copy)]
pub struct Candidate {
    pub back: u8,
    pub sum: u64,
    pub ghost small: { sum ≤ window_slots * most_reading },
}

// What stands where no day is in hand. The ghost field keeps Default from being derived.
impl Default for Candidate {
    fn default() -> Self {
        Candidate { back: 0, sum: 0 }
    }
}
