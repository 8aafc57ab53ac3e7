// The reading calls: balance, unpaid plan, service, settled amount, cost of the standing estimates.
// It uses the moves' totals; its promises name the terms, the ledger, the account and the refinement, too, which lie above the totals, so that these
// are functions and no methods: a trait for five calls would be no plainer. Each says the answer twice: off the totals, and in the ledger's terms.
// `balance` and `settled` answer 0 of totals that are no account's: a function that cannot fail may not come to.
#![tactic(auto)]

ghost use Rattle.std.specs.Prelude.{◌≡◌, ◌*◌, ◌≤◌, pos, ◌-ℤ◌};
ghost use Rattle.moves.specs.Moves.{max_total};
ghost use Rattle.readings.specs.Readings.{IsBalance, IsPlan, IsService, IsSettled, IsEstimates};

use moves::{MAX_TOTAL, Totals};

// The difference of two sums, each of one or two totals.
fn signed(up: u64, down: u64) -> i64
    requires { (up ≤ 2 * max_total) × (down ≤ 2 * max_total) }
    ensures { result ≡ pos up -ℤ pos down }
{
    // at most 2 ^ 61, for which `From` has no conversion
    up as i64 - down as i64
}

// The balance B, in cents.
pub fn balance(s: Totals) -> i64
    ensures { IsBalance s result }
{
    // not `is_in_range`: B is read off these two, whatever the others are
    if s.credit <= MAX_TOTAL && s.debit <= MAX_TOTAL {
        signed(s.credit, s.debit)
    } else {
        0
    }
}

// The unpaid plan R, in cents.
#[tactic(auto, using(crate::proofs::After::is_plan))]
pub fn plan(s: Totals) -> u64
    ensures { IsPlan s result }
{
    s.plan
}

// Whether service is on.
#[tactic(auto, using(crate::proofs::After::is_service))]
pub fn service(s: Totals) -> bool
    ensures { IsService s result }
{
    s.on
}

// The settled amount: payments kept and credits, less charges and metered usage, in cents.
#[tactic(auto, using(crate::proofs::After::is_settled), unfolding(crate::specs::Readings::settled_of))]
pub fn settled(s: Totals) -> i64
    ensures { IsSettled s result }
{
    if s.is_in_range() {
        signed(s.credit + s.standing, s.debit + s.plan)
    } else {
        0
    }
}

// The cost of the standing estimates, in cents.
#[tactic(auto, using(crate::proofs::After::is_estimates))]
pub fn estimates(s: Totals) -> u64
    ensures { IsEstimates s result }
{
    s.standing
}
