// Demand 3, one theorem: over every list of posting calls, by the promises of the calls that run, of the Rattle calls and of the C calls.
// It uses the promises of `account::open`, of the posting and of the reading calls, of the calls over numbers, and the definitions of the terms,
// the ledger and the moves' totals. proofs/Contracts.antt has the same over the contracts of the Rattle calls as the toolchain compiled them, and
// that of `head` over those of the C calls.
#![tactic(auto)]

ghost use Rattle.terms.specs.declared.Terms.{Terms};
ghost use Rattle.demand.specs.Calls.{rattle, in_c};
ghost use Rattle.demand.specs.Demand3.{Demand3};

// For all terms and every list of calls: see specs/Demand3.antt. The function does nothing; its promise is the theorem.
pub fn demand_3()
    ensures rattle { (t : Terms) → Demand3 rattle t }
    ensures in_c { (t : Terms) → Demand3 in_c t }
{}
