// Prices by day.
ghost use Rattle.moves.specs.Moves.{price_of};
ghost use Rattle.moves.specs.Sorts.{Gives};

use super::Move;
use super::guard::Checked;
use ledger::Refusal;
use tariff::PRICE_CELLS;

impl Checked<'_> {
    #[tactic(auto, using(crate::proofs::Early::early), unfolding(crate::specs::Moves::price_of))]
    #[inline(always)]
    pub(crate) fn price(self) -> Result<Move, Refusal>
        ensures { Gives self.entry result (λ t m e. price_of t m self.entry.cells.prices.now e) }
    {
        let e = self.event;
        let price_place = tariff::price_place(self.cells.prices, e.day);
        if price_place >= PRICE_CELLS {
            return Err(Refusal::Prices);
        }
        Ok(Move {
            value: 0,
            totals: self.before.totals.tallied(e.day),
            price_place,
            ..self.before
        })
    }
}
