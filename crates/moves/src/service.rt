// Warnings, marks, plans, disconnects and connects.
ghost use Rattle.std.specs.Prelude.{◌≡◌, Ok};
ghost use Rattle.moves.specs.Moves.{warn_of, mark_of, plan_condition_met, plan_of, served_of, disconnect_of, connect_of};
ghost use Rattle.moves.specs.Sorts.{Gives};

use super::guard::Checked;
use super::{Mark, Move, Totals};
use ledger::{REQUIRED_DEBT, Refusal};

impl Checked<'_> {
    #[tactic(auto, using(crate::proofs::Early::early), unfolding(crate::specs::Moves::warn_of))]
    #[inline(always)]
    pub(crate) fn warn(self) -> Result<Move, Refusal>
        ensures { Gives self.entry result warn_of }
    {
        Ok(Move {
            value: 0,
            totals: self.before.totals.tallied(self.event.day),
            warned: 1,
            ..self.before
        })
    }

    #[tactic(auto, using(crate::proofs::Early::early, crate::proofs::Early::mark_order), unfolding(crate::specs::Moves::mark_of))]
    #[inline(always)]
    pub(crate) fn mark(self) -> Result<Move, Refusal>
        requires { self.event.sort ≡ 8 }
        ensures { Gives self.entry result mark_of }
    {
        let e = self.event;
        Ok(Move {
            value: 0,
            totals: self.before.totals.tallied(e.day),
            mark: Some(Mark {
                kind: e.kind,
                from: e.from,
                to: e.to,
            }),
            ..self.before
        })
    }

    // Whether the plan kind's condition holds.
    #[tactic(auto, using(crate::proofs::Early::early))]
    #[inline(always)]
    fn may_defer(self) -> bool
        ensures { let c = self.entry in result ≡ plan_condition_met c.cells.terms c.before.totals c.cells.marks.now c.event }
    {
        let s = self.before.totals;
        let e = self.event;
        if e.kind != 1 {
            return s.credit < s.debit;
        }
        s.debit >= s.credit + REQUIRED_DEBT
            && marks::weather_near(self.cells.marks, u32::from(self.weekday()), e.day)
    }

    #[tactic(auto, using(crate::proofs::Early::early), unfolding(crate::specs::Moves::plan_of, crate::specs::Moves::deferring_of))]
    #[inline(always)]
    pub(crate) fn plan(self) -> Result<Move, Refusal>
        ensures { Gives self.entry result (λ t m e. plan_of t m self.entry.cells.marks.now e) }
    {
        let before = self.before;
        let t = self.cells.terms;
        let e = self.event;
        if !self.may_defer() {
            return Err(Refusal::PlanCondition);
        }
        if before.totals.plan > 0 {
            return Err(Refusal::PlanUnpaid);
        }
        let s = before.totals.tallied(e.day);
        let deferred = u64::from(t.connect) + s.debit - s.credit;
        Ok(Move {
            value: deferred,
            totals: Totals {
                credit: s.credit + deferred,
                plan: s.plan + deferred,
                ..s
            },
            ..before
        })
    }

    // The move of an order that is carried out: service on or off.
    #[tactic(auto, using(crate::proofs::Early::early), unfolding(crate::specs::Moves::served_of))]
    #[inline(always)]
    fn served(self, on: bool) -> Move
        ensures { Gives self.entry (Ok result) (λ t m e. served_of t m e on) }
    {
        Move {
            value: 0,
            totals: Totals {
                on,
                ..self.before.totals.tallied(self.event.day)
            },
            ..self.before
        }
    }

    // Disconnect and connect stay two: each states its own rule, and what they share is `served`.
    #[tactic(auto, using(crate::proofs::Early::early), unfolding(crate::specs::Moves::disconnect_of))]
    #[inline(always)]
    pub(crate) fn disconnect(self) -> Result<Move, Refusal>
        ensures { let c = self.entry.cells in Gives self.entry result (λ t m e. disconnect_of t m c.marks.now c.warned.now e) }
    {
        let t = self.cells.terms;
        let s = self.before.totals;
        let day = self.event.day;
        if !s.on {
            return Err(Refusal::Service);
        }
        if s.credit >= s.debit + u64::from(t.cutoff) {
            return Err(Refusal::Balance);
        }
        if marks::latest(self.cells.warned, day).is_none() {
            return Err(Refusal::Warning);
        }
        if self.weekday().is_weekend() || marks::barring(self.cells.marks, day) {
            return Err(Refusal::Barred);
        }
        Ok(self.served(false))
    }

    #[tactic(auto, using(crate::proofs::Early::early), unfolding(crate::specs::Moves::connect_of))]
    #[inline(always)]
    pub(crate) fn connect(self) -> Result<Move, Refusal>
        ensures { Gives self.entry result connect_of }
    {
        let s = self.before.totals;
        if s.on {
            return Err(Refusal::Service);
        }
        if s.credit < s.debit + u64::from(self.cells.terms.connect) {
            return Err(Refusal::Balance);
        }
        Ok(self.served(true))
    }
}
