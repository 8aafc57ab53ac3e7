// A text read event by event, for callers that post each event as they read it. The text is not copied; the caller keeps a reader between the
// calls, two numbers of which C may hand in any.
// It uses the terms, the ledger's event and refusals, and the event text, and in its promises the scanner's. Its promises cite
// specs/Reader.antt.
#![tactic(auto)]

ghost use Rattle.std.specs.Prelude.{◌≡◌};
ghost use Rattle.reader.specs.Reader.{begun, next_of, ReadsWhole};

use ledger::{Event, Refusal};
use terms::Terms;
use text::MAX_TEXT;

// A reader's codes: it reads on, or the text was at its end, or malformed.
const READS_ON: u32 = 0;

pub const AT_END: u32 = 255;

const MALFORMED: u32 = 15;

// The place at which the next event starts, and what ended the reading.
#[repr(C)]
#[derive(Clone, Copy, Debug, PartialEq, Eq, Default)]
pub struct Reader {
    pub place: u32,
    pub code: u32,
}

impl Reader {
    // The terms of a text; the reader then stands at its first event.
    #[tactic(auto, unfolding(crate::specs::Reader::begun))]
    pub fn begin(&mut self, text: &[u8]) -> Result<Terms, Refusal>
        ensures reader { self.new ≡ (begun text.now).reader }
        ensures answer { result ≡ (begun text.now).answer }
    {
        *self = Reader {
            place: 0,
            code: MALFORMED,
        };
        let (terms, rest) = text::terms_in(text).ok_or(Refusal::Form)?;
        *self = Reader {
            place: (text.len() - rest.len()) as u32,
            code: READS_ON,
        };
        Ok(terms)
    }

    // The next event of the same text; none at its end.
    #[tactic(auto, unfolding(crate::specs::Reader::next_of))]
    pub fn next(&mut self, text: &[u8]) -> Result<Option<Event>, Refusal>
        ensures reader { self.new ≡ (next_of text.now self.old).reader }
        ensures answer { result ≡ (next_of text.now self.old).answer }
    {
        match self.code {
            READS_ON => {}
            AT_END => return Ok(None),
            _ => return Err(Refusal::Form),
        }
        // malformed, unless an event or the end is found
        self.code = MALFORMED;
        if text.len() > MAX_TEXT {
            return Err(Refusal::Form);
        }
        let rest = text.get(self.place as usize..).ok_or(Refusal::Form)?;
        if rest.is_empty() {
            self.code = AT_END;
            return Ok(None);
        }
        let (event, after) = text::read_event(rest).ok_or(Refusal::Form)?;
        *self = Reader {
            place: (text.len() - after.len()) as u32,
            code: READS_ON,
        };
        Ok(Some(event))
    }
}

// Call after call, a text is read whole.
pub fn reads_whole()
    ensures { ReadsWhole }
{}
