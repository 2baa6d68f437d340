// Slot totals and the lent places.
ghost use Rattle.std.specs.Prelude.{◌≡◌, ℕ, ◌<◌, ◌+◌, ◌^◌, pos, nat_abs, length, get_or, ltb};
ghost use Rattle.numbers.specs.Lists.{any};
ghost use Rattle.numbers.specs.Slots.{window_slots};
ghost use Rattle.figures.specs.SlotTotals.{plus};

use numbers::WINDOW_SLOTS;
use std::array;

// Slot by slot.
pub fn add_totals(totals: [i64; WINDOW_SLOTS], found: [i64; WINDOW_SLOTS]) -> [i64; WINDOW_SLOTS]
    requires { (i : ℕ) → nat_abs (get_or totals i (pos 0)) + nat_abs (get_or found i (pos 0)) < 2 ^ 63 }
    ensures { result ≡ plus totals found }
{
    array::from_fn(|slot| integers::add_bounded(totals[slot], found[slot]))
}

// The six results into the lent places.
pub fn put(places: &mut [i64], found: [i64; WINDOW_SLOTS])
    requires { length places.old ≡ window_slots }
    ensures { places.new ≡ found }
{
    places.copy_from_slice(&found);
}

// Whether one of the totals is beyond a limit, on either side of zero.
pub fn has_beyond(totals: [i64; WINDOW_SLOTS], most: u64) -> bool
    ensures { result ≡ any (λ total. ltb most (nat_abs total)) totals }
{
    totals.iter().any(|total| most < integers::size_of(*total))
}
