// The account that a text makes, for those who print from it.
// It uses the ledger's refusals, the account, the posting call and the event text, and in its definitions the terms, the refinement's lists and the
// transcript's. Its promises cite specs/TextAccount.antt.
#![tactic(auto)]

ghost use Rattle.std.specs.Prelude.{◌≡◌};
ghost use Rattle.refinement.specs.Lists.{account_after};
ghost use Rattle.text_account.specs.TextAccount.{events_of, EventsSuffice, IsTextAccount};

use account::Account;
use ledger::Refusal;

// The count of events in their definition leaves none out.
pub fn count_suffices()
    ensures { EventsSuffice }
{}

// The events of a text, to its end or to the first that breaks the form.
fn post_events(a: &mut Account, text: &[u8])
    ensures { a.new ≡ account_after a.old (events_of text.now) }
{
    // While an event stands there: there is nothing to count.
    let mut rest = text;
    while let Some((event, after)) = text::read_event(rest) {
        // a refused event leaves the account as it is
        let _ = posting::post(a, event);
        rest = after;
    }
}

// The account that a text makes: its terms open it, its events are posted to the end or to the first that breaks the form; or the refusal of
// malformed or refused terms.
pub fn account_of(text: &[u8]) -> Result<Account, Refusal>
    ensures { IsTextAccount text.now result }
{
    let (terms, rest) = text::terms_in(text).ok_or(Refusal::Form)?;
    let mut account = account::open(terms)?;
    post_events(&mut account, rest);
    Ok(account)
}
