// Payments, reversals and credits.
ghost use Rattle.std.specs.Prelude.{◌≡◌, ◌*◌, ◌/◌, ◌≤◌, min};
ghost use Rattle.terms.specs.Terms.{max_share};
ghost use Rattle.moves.specs.Moves.{pay_of, reverse_of, credit_of};
ghost use Rattle.moves.specs.Sorts.{Gives};

use super::guard::Checked;
use super::{Move, Payment, Totals};
use ledger::{MAX_PAYMENTS, Refusal};

// The smaller of the unpaid plan and the share of the amount, rounded down.
fn plan_part(plan: u64, amount: u32, share: u32) -> u32
    requires { share ≤ max_share }
    ensures { result ≡ min plan (amount * share / 100) }
{
    plan.min(u64::from(amount) * u64::from(share) / 100) as u32
}

impl Checked<'_> {
    #[tactic(auto, using(crate::proofs::Early::early), unfolding(crate::specs::Moves::pay_of))]
    #[inline(always)]
    pub(crate) fn pay(self) -> Result<Move, Refusal>
        ensures { Gives self.entry result pay_of }
    {
        let before = self.before;
        let e = self.event;
        let number = before.totals.count;
        if number >= MAX_PAYMENTS {
            return Err(Refusal::Payments);
        }
        let s = before.totals.tallied(e.day);
        let part = plan_part(s.plan, e.amount, self.cells.terms.share);
        Ok(Move {
            value: u64::from(number),
            totals: Totals {
                credit: s.credit + u64::from(e.amount - part),
                plan: s.plan - u64::from(part),
                count: number + 1,
                ..s
            },
            number,
            payment: Payment {
                day: e.day,
                amount: e.amount,
                part,
                reversed: false,
            },
            ..before
        })
    }

    #[tactic(auto, using(crate::proofs::Early::early), unfolding(crate::specs::Moves::reverse_of))]
    #[inline(always)]
    pub(crate) fn reverse(self) -> Result<Move, Refusal>
        ensures { Gives self.entry result reverse_of }
    {
        let before = self.before;
        let e = self.event;
        let payment = before.payment;
        if e.number >= before.totals.count || payment.reversed {
            return Err(Refusal::Payment);
        }
        let s = before.totals.tallied(e.day);
        Ok(Move {
            value: 0,
            totals: Totals {
                debit: s.debit + u64::from(payment.amount.saturating_sub(payment.part)),
                plan: s.plan + u64::from(payment.part),
                ..s
            },
            payment: Payment {
                reversed: true,
                ..payment
            },
            ..before
        })
    }

    #[tactic(auto, using(crate::proofs::Early::early), unfolding(crate::specs::Moves::credit_of))]
    #[inline(always)]
    pub(crate) fn credit(self) -> Result<Move, Refusal>
        ensures { Gives self.entry result credit_of }
    {
        let e = self.event;
        let s = self.before.totals.tallied(e.day);
        Ok(Move {
            value: 0,
            totals: Totals {
                credit: s.credit + u64::from(e.amount),
                ..s
            },
            ..self.before
        })
    }
}
