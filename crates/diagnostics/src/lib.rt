// What a program says on standard error of a text that breaks its form: the line at which what breaks it begins.
// It uses the form of an event text, and the printing. Its promises cite specs/Diagnostics.antt.
#![tactic(auto)]

ghost use Rattle.printing.specs.Printer.{HasRoom, Writes};
ghost use Rattle.diagnostics.specs.Diagnostics.{message_room, message_of, WholeMessage};

use printing::Printer;
use text::Form;

// A buffer that holds any message.
pub const MESSAGE_ROOM: usize = 70;

fn put_message(page: &mut Printer, form: Form)
    requires { HasRoom page.old message_room }
    ensures { Writes page.old (message_of form) page.new }
{
    match form {
        Form::Sound => {}
        Form::TooLong => page.put_bytes(b"the text is longer than 65536 bytes\n"),
        Form::Terms => page.put_bytes(b"line 1: the terms break the form\n"),
        Form::Event { ordinal, line } => {
            page.put_field(b"line ", u64::from(line));
            page.put_field(b": event ", u64::from(ordinal));
            page.put_bytes(b" breaks the form\n");
        }
    }
}

// The message for a text, from the start of the buffer on, and how many bytes it has: none where the text keeps its form. A buffer shorter than
// `MESSAGE_ROOM` is left alone, and the answer is 0.
pub fn message(text: &[u8], out: &mut [u8]) -> usize
    ensures { WholeMessage text.now out.old out.new result }
{
    if out.len() < MESSAGE_ROOM {
        return 0;
    }
    let mut page = Printer { out, at: 0 };
    put_message(&mut page, text::form_of(text));
    page.at
}
