// The posting calls over a lent account: one event, and a row of events.
// It uses the account's step, and the ledger's event and refusals. Its promises cite specs/Posting.antt: by the step, and, through the refinement,
// in the ledger's terms.
#![tactic(auto)]

ghost use Rattle.std.specs.Prelude.{◌≡◌};
ghost use Rattle.ledger.specs.Refusals.{code_of, answer_record};
ghost use Rattle.account.specs.Step.{step_of, stepped_of};
ghost use Rattle.account.specs.declared.Account.{Account};
ghost use Rattle.ledger.specs.declared.Event.{Event};
ghost use Rattle.posting.specs.Posting.{Posts, PostsRow, row_left};

use account::{Account, Posted, step};
use ledger::{Event, Refusal, code};

// One event. The thin form over the step by value, which the project names, copies, calls and stores; `Account::post` is the same in place.
#[tactic(auto, using(crate::proofs::Ledgers::posts))]
pub fn post(a: &mut Account, e: Event) -> Result<u64, Refusal>
    ensures { Posts a.old e a.new (answer_record result) }
{
    let before = *a;
    let posted = step(before, e);
    *a = posted.account;
    posted.answer
}

// One event, by value, in the form that lends an account to `post`: it is handed back with the answer.
pub fn post_by_value(a: Account, e: Event) -> Posted
    ensures { Posts a e result.account (answer_record result.answer) }
{
    let mut b = a;
    let answer = post(&mut b, e);
    Posted { account: b, answer }
}

// What a row is posted to: the record, or C's numbers.
pub trait Postable {
    // the account that it is read as, and what an event leaves of it
    ghost account: { Self → Account };

    ghost posted: { Self → Event → Self };

    fn post(&mut self, e: Event) -> Result<u64, Refusal>
        ensures left { self.new ≡ posted self.old e }
        ensures step { stepped_of (account self.new) result ≡ step_of (account self.old) e };
}

impl Postable for Account {
    ghost account = { λ a. a };

    ghost posted = { λ a e. (step_of a e).account };

    fn post(&mut self, e: Event) -> Result<u64, Refusal> {
        Account::post(self, e)
    }
}

// A row of events in order, one code byte each; refused by 16 where the buffer is shorter than the row.
pub fn post_each<A: Postable>(a: &mut A, row: &[Event], codes: &mut [u8]) -> Result<(), Refusal>
    ensures account { PostsRow (A.account a.old) row.now codes.old (A.account a.new) codes.new (code_of result) }
    ensures left { a.new ≡ row_left A.posted a.old row.now codes.old }
{
    if codes.len() < row.len() {
        return Err(Refusal::Buffer);
    }
    // The codes are written by index: `zip` with `iter_mut` keeps only the length for a proof.
    for (i, event) in row.iter().enumerate() {
        let answer = a.post(*event);
        codes[i] = code(answer);
    }
    Ok(())
}

// The row of an account, in the form that the project names.
pub fn post_row(a: &mut Account, row: &[Event], codes: &mut [u8]) -> Result<(), Refusal>
    ensures { PostsRow a.old row.now codes.old a.new codes.new (code_of result) }
{
    post_each(a, row, codes)
}
