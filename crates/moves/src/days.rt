// Usage days: estimates and reads.
ghost use Rattle.std.specs.Prelude.{◌≡◌, cond, ltb, leb, Ok, Err};
ghost use Rattle.tariff.specs.Tariff.{cost_of};
ghost use Rattle.terms.specs.Terms.{max_price};
ghost use Rattle.ledger.specs.declared.Refusal.TheVariants.{Terms, UsageDay};
ghost use Rattle.moves.specs.Moves.{usage_price, estimate_of, read_of};
ghost use Rattle.moves.specs.Sorts.{Gives};

use super::guard::Checked;
use super::{Day, Move, Totals, Usage};
use ledger::Refusal;
use terms::MAX_PRICE;

impl Checked<'_> {
    // The cost of the event's usage day at the price in force on it, or a refusal: by 7 where the day is not before the event's, by 1 where no
    // account has that price.
    #[inline(always)]
    fn usage_cost(self) -> Result<u64, Refusal>
        ensures { let c = self.entry in let p = usage_price c.cells.terms c.cells.prices.now c.event in
            result ≡ cond (leb c.event.day c.event.usage) (Err UsageDay) (cond (ltb max_price p) (Err Terms) (Ok (cost_of c.event.wh p))) }
    {
        let e = self.event;
        if e.usage >= e.day {
            return Err(Refusal::UsageDay);
        }
        let price = tariff::in_force(self.cells.prices, self.cells.terms.price, e.usage);
        if price > MAX_PRICE {
            return Err(Refusal::Terms);
        }
        Ok(tariff::cost(e.wh, price))
    }

    #[tactic(auto, using(crate::proofs::Early::early, crate::proofs::Early::usage_cost), unfolding(crate::specs::Moves::estimate_of, crate::specs::Moves::estimated_of))]
    #[inline(always)]
    pub(crate) fn estimate(self) -> Result<Move, Refusal>
        requires { self.event.sort ≡ 5 }
        ensures { Gives self.entry result (λ t m e. estimate_of t m self.entry.cells.prices.now e) }
    {
        let before = self.before;
        let e = self.event;
        let cost = self.usage_cost()?;
        if before.day.usage != Usage::Blank {
            return Err(Refusal::UsageState);
        }
        let s = before.totals.tallied(e.day);
        Ok(Move {
            value: cost,
            totals: Totals {
                debit: s.debit + cost,
                standing: s.standing + cost,
                ..s
            },
            day: Day {
                usage: Usage::Estimated {
                    wh: e.wh,
                    cost: cost as u32,
                },
            },
            ..before
        })
    }

    #[tactic(auto, using(crate::proofs::Early::early, crate::proofs::Early::usage_cost), unfolding(crate::specs::Moves::read_of, crate::specs::Moves::metered_of))]
    #[inline(always)]
    pub(crate) fn read(self) -> Result<Move, Refusal>
        requires { self.event.sort ≡ 6 }
        ensures { Gives self.entry result (λ t m e. read_of t m self.entry.cells.prices.now e) }
    {
        let before = self.before;
        let e = self.event;
        let cost = self.usage_cost()?;
        // the cost of the estimate that the read takes back
        let old = match before.day.usage {
            Usage::Blank => 0,
            Usage::Estimated { cost, .. } => u64::from(cost),
            Usage::Metered { .. } => return Err(Refusal::UsageState),
        };
        let s = before.totals.tallied(e.day);
        Ok(Move {
            value: cost,
            totals: Totals {
                credit: s.credit + old,
                debit: s.debit + cost,
                standing: s.standing.saturating_sub(old),
                ..s
            },
            day: Day {
                usage: Usage::Metered {
                    wh: e.wh,
                    cost: cost as u32,
                },
            },
            ..before
        })
    }
}
