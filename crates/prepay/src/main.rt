// `prepay`: an event text on standard input, its transcript on standard output, and where the text breaks its form on standard error.
// It uses the event text's limit, the transcript and the diagnostics. A read or a write that fails ends the program with its error.
// Of a text that is too long it reads one byte more than the limit, which `as` widens: usize has no `From` into u64.
// (For the lines that read, a crate of the programs would be no shorter.)
#![tactic(auto)]

use std::io;
use std::io::{Read, Write};
use transcript::Progress;

fn main(rt: HostRuntime) -> io::Result<()> {
    let mut text = Vec::new(rt.alloc());
    rt.reader()
        .take(text::MAX_TEXT as u64 + 1)
        .read_to_end(&mut text)?;
    let mut writer = io::writer(&rt);
    let mut out = [0u8; 8192];
    let mut progress = Progress::begin(&text);
    // Piece by piece, until none is left.
    while !progress.done {
        let length = progress.piece(&text, &mut out);
        writer.write_all(&out[..length])?;
    }
    // A text of good terms that was read to its end keeps the form: it is not read again.
    if progress.at < text.len() || progress.code != 0 {
        let length = diagnostics::message(&text, &mut out);
        rt.stderr().write_all(&out[..length])?;
    }
    Ok(())
}
