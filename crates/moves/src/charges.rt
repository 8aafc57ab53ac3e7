// Charges, summed by month and kind.
ghost use Rattle.std.specs.Prelude.{◌≡◌};
ghost use Rattle.moves.specs.Moves.{charge_of};
ghost use Rattle.moves.specs.Sorts.{Gives};

use super::guard::Checked;
use super::{MAX_TOTAL, Move, Totals};
use ledger::{CHARGE_KIND_COUNT, Refusal};

impl Checked<'_> {
    #[tactic(auto, using(crate::proofs::Early::early, crate::proofs::Early::charge_bounds), unfolding(crate::specs::Moves::charge_of))]
    #[inline(always)]
    pub(crate) fn charge(self) -> Result<Move, Refusal>
        requires { self.event.sort ≡ 4 }
        ensures { Gives self.entry result (λ t m e. charge_of t m self.entry.cells.charges.now e) }
    {
        let before = self.before;
        let e = self.event;
        let place = CHARGE_KIND_COUNT * self.month() + (e.kind - 1);
        let sum = self.cells.charges[place as usize];
        if sum > MAX_TOTAL {
            return Err(Refusal::Terms);
        }
        let s = before.totals.tallied(e.day);
        Ok(Move {
            value: 0,
            totals: Totals {
                debit: s.debit + u64::from(e.amount),
                ..s
            },
            place,
            sum: sum + u64::from(e.amount),
            ..before
        })
    }
}
