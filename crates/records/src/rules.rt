// The rules that one record shows by itself: a row each, told by its words as they are, whatever the other rows tell.
ghost use Rattle.std.specs.Prelude.{◌≡◌, ◌+ℤ◌};
ghost use Rattle.heads.specs.Heads.{counts};
ghost use Rattle.records.specs.Rules.{is_allowed, settled_rule, expected_rule, split_rule, bid_rule};
ghost use Rattle.records.specs.Rules.{shortfall_rule, missed_rule, reached_rule, points_rule, total_rule, rules, breaks_rule};

use crate::Record;
use heads::MOST_RESULT;
use integers::or_zero;
use numbers::WINDOW_SLOTS;

fn settled_rule(r: Record) -> bool
    ensures { result ≡ settled_rule r }
{
    r.settled == figures::closing::settled_of(r.total)
}

fn expected_rule(r: Record) -> bool
    ensures { result ≡ expected_rule r }
{
    r.expected == r.settled.max(0)
}

// A sum beyond 64 bits is no word.
fn split_rule(r: Record) -> bool
    ensures { result ≡ split_rule r }
{
    let both = r.kept.checked_add(r.surplus);
    0 <= r.kept && 0 <= r.surplus && both.is_some_and(|both| both == r.expected)
}

fn bid_rule(r: Record) -> bool
    ensures { result ≡ bid_rule r }
{
    r.bid == i64::from(figures::closing::is_bid(or_zero(r.expected)))
}

fn shortfall_rule(r: Record) -> bool
    ensures { result ≡ shortfall_rule r }
{
    0 <= r.shortfall
}

// No contract, or one of 1,000 to 10,000,000 kW.
fn is_allowed(contract: i64) -> bool
    ensures { result ≡ is_allowed contract }
{
    0 <= contract && heads::contract_refusal(or_zero(contract)).is_ok()
}

// The same of a sum: one beyond 64 bits is no contract.
fn is_allowed_sum(a: i64, b: i64) -> bool
    ensures { result ≡ is_allowed (a +ℤ b) }
{
    a.checked_add(b).is_some_and(is_allowed)
}

fn missed_rule(r: Record) -> bool
    ensures { result ≡ missed_rule r }
{
    r.shortfall <= 0 || r.surplus == 0 && is_allowed_sum(r.settled, r.shortfall)
}

fn reached_rule(r: Record) -> bool
    ensures { result ≡ reached_rule r }
{
    r.shortfall != 0 || 0 <= r.settled && is_allowed(r.kept)
}

fn points_rule(r: Record) -> bool
    ensures { result ≡ points_rule counts r }
{
    u32::try_from(r.points).is_ok_and(|points| heads::count_refusal(points).is_ok())
}

// The points may be any word here, so that the product wants more than 64 bits.
fn total_rule(r: Record) -> bool
    ensures { result ≡ total_rule r }
{
    let most = u128::from(MOST_RESULT) * WINDOW_SLOTS as u128;
    u128::from(r.total.unsigned_abs()) <= most * u128::from(or_zero(r.points))
}

// The rules in the order of the change request: which of them the record keeps.
fn rules(r: Record) -> [bool; 9]
    ensures { result ≡ rules counts r }
{
    [
        settled_rule(r),
        expected_rule(r),
        split_rule(r),
        bid_rule(r),
        shortfall_rule(r),
        missed_rule(r),
        reached_rule(r),
        points_rule(r),
        total_rule(r),
    ]
}

// Whether a record breaks one of them.
#[tactic(auto, unfolding(crate::specs::Rules::breaks_within))]
pub fn breaks_rule(r: Record) -> bool
    ensures { result ≡ breaks_rule r }
{
    rules(r).iter().any(|keeps| !*keeps)
}
