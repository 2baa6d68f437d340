// The closing figures.
ghost use Rattle.std.specs.Prelude.{◌≡◌, pos, nat_abs, get_or};
ghost use Prim.Native.Nat.{ℕ, ◌≤◌, ◌<◌};
ghost use Rattle.integers.specs.Integers.{most_summand};
ghost use Rattle.figures.specs.Figures.{settled_of, shortfall_of, is_bid, figures_of, no_figures};

use crate::Figures;
use numbers::WINDOW_SLOTS;

// Watt-hours of three hours in one kW: the step from the total to the settled capacity.
const WATT_HOURS: u32 = 3000;

// kW of an expected capacity that may be bid.
const LEAST_BID: u64 = 1000;

// The total in kW, rounded toward minus infinity.
pub fn settled_of(total: i64) -> i64
    ensures { result ≡ settled_of total }
{
    integers::floor_div(total, WATT_HOURS)
}

// Whether an expected capacity may be bid.
pub fn is_bid(expected: u64) -> bool
    ensures { result ≡ is_bid expected }
{
    LEAST_BID <= expected
}

// Contract less settled, or 0 where that is negative.
fn shortfall_of(contract: u32, settled: i64) -> u64
    requires { nat_abs settled < 9000000000000000000 }
    ensures { result ≡ shortfall_of contract settled }
{
    integers::or_zero(i64::from(contract) - settled)
}

// The figures of a contract, slot totals and points taken.
#[tactic(auto, unfolding(crate::specs::Figures::figures_of))]
pub fn figures_of(contract: u32, totals: [i64; WINDOW_SLOTS], points: u32) -> Figures
    requires { (i : ℕ) → nat_abs (get_or totals i (pos 0)) ≤ most_summand }
    ensures { result ≡ figures_of contract totals points }
{
    let total = integers::total_of(totals);
    let settled = settled_of(total);
    let shortfall = shortfall_of(contract, settled);
    let expected = integers::or_zero(settled);
    let kept = expected.min(u64::from(contract));
    Figures {
        total,
        settled,
        shortfall,
        expected,
        kept,
        surplus: expected - kept,
        points,
        bid: is_bid(expected),
    }
}

// Refused figures.
pub fn no_figures() -> Figures
    ensures { result ≡ no_figures }
{
    Figures::default()
}
