// Texts: read event by event, with a reader in the caller's memory; printed whole, for hosts.
ghost use Rattle.std.specs.Prelude.{◌≡◌};
ghost use Rattle.reader.specs.Reader.{begun, next_of};
ghost use Rattle.head.specs.Texts.{terms_left, event_left, AsPrinted};
ghost use Rattle.transcript.specs.Transcript.{WholeTranscript};
ghost use Rattle.statement.specs.Statement.{WholeStatement};

use ledger::Event;
use reader::{AT_END, Reader};
use terms::Terms;

// The terms of a text, and the reader at its first event; 15 where they are malformed.
#[unsafe(no_mangle)]
pub extern "C" fn prepay_read_terms(text: &[u8], reader: &mut Reader, terms: &mut Terms) -> u8
    ensures reader { reader.new ≡ (begun text.now).reader }
    ensures terms { (terms.new, result) ≡ terms_left terms.old (begun text.now).answer }
{
    match reader.begin(text) {
        Ok(read) => {
            *terms = read;
            0
        }
        Err(refusal) => u8::from(refusal),
    }
}

// The next event of the same text; 255 at its end, 15 where it is malformed.
#[unsafe(no_mangle)]
pub extern "C" fn prepay_read_event(text: &[u8], reader: &mut Reader, event: &mut Event) -> u8
    ensures reader { reader.new ≡ (next_of text.now reader.old).reader }
    ensures event { (event.new, result) ≡ event_left event.old (next_of text.now reader.old).answer }
{
    match reader.next(text) {
        Ok(Some(read)) => {
            *event = read;
            0
        }
        Ok(None) => AT_END as u8,
        Err(refusal) => u8::from(refusal),
    }
}

// Call after call, they give the events that are printed of the text whole.
pub fn reads_as_printed()
    ensures { AsPrinted }
{}

// The transcript of a text.
#[unsafe(no_mangle)]
pub extern "C" fn prepay_transcript(text: &[u8], out: &mut [u8]) -> usize
    ensures { WholeTranscript text.now out.old out.new result }
{
    transcript::transcript(text, out)
}

// The month figures of a text.
#[unsafe(no_mangle)]
pub extern "C" fn prepay_statement(text: &[u8], out: &mut [u8]) -> usize
    ensures { WholeStatement text.now out.old out.new result }
{
    statement::statement(text, out)
}
