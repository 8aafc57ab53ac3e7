// What `page` prints for a text and a month: the month's page, put whole into a lent buffer.
// It uses the ledger's refusals, the account of a text, the month's page, the printing and the transcript, and in its definitions the terms, the
// scanner's words and the refinement. Its promise cites specs/TextPage.antt.
#![tactic(auto)]

ghost use Rattle.std.specs.Prelude.{◌≤◌, length};
ghost use Rattle.month_page.specs.Page.{page_room};
ghost use Rattle.text_page.specs.TextPage.{PutsMonth, WholeTextPage};

use account::Account;
use month_page::PAGE_ROOM;
use printing::Printer;

// The page of the account's month, or the line of its refusal, and how many bytes it has.
fn put_month(a: &Account, m: u32, out: &mut [u8]) -> usize
    requires { page_room ≤ length out.old }
    ensures { PutsMonth a.now m out.old out.new result }
{
    match month_page::page(a, m, out) {
        Ok(length) => length,
        Err(refusal) => {
            let mut line = Printer { out, at: 0 };
            line.put_field(b"code=", u64::from(u8::from(refusal)));
            line.put_bytes(b" value=0\n");
            line.at
        }
    }
}

// What `page` prints, from the start of the buffer on, and how many bytes it has. A buffer shorter than `PAGE_ROOM` is left alone, and the answer
// is 0.
pub fn text_page(text: &[u8], m: u32, out: &mut [u8]) -> usize
    ensures { WholeTextPage m text.now out.old out.new result }
{
    if out.len() < PAGE_ROOM {
        return 0;
    }
    match text_account::account_of(text) {
        Ok(account) => put_month(&account, m, out),
        Err(refusal) => {
            let mut line = Printer { out, at: 0 };
            transcript::put_refusal(&mut line, refusal);
            line.at
        }
    }
}
