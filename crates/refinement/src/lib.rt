// The refinement: the account record represents the ledger, for one event and for lists of them.
// It uses the definitions of the account, the moves, the ledger, the terms and the calendar.
#![tactic(auto)]

ghost use Rattle.std.specs.Prelude.{◌≡◌, true};
ghost use Rattle.terms.specs.Terms.{valid_terms};
ghost use Rattle.terms.specs.declared.Terms.{Terms};
ghost use Rattle.refinement.specs.Agree.{Refinement};

// The function does nothing; its promise is the theorem (specs/Agree.antt).
pub fn refinement()
    ensures { (t : Terms) → valid_terms t ≡ true → Refinement t }
{}
