// `summary`: an event text on standard input, a line for each month of the account on standard output, and where the text breaks its form on
// standard error.
// It uses the event text's limit, the statement and the diagnostics. A read or a write that fails ends the program with its error.
// Of a text that is too long it reads one byte more than the limit, which `as` widens: usize has no `From` into u64.
// (For the lines that read, a crate of the programs would be no shorter.)
#![tactic(auto)]

use std::io;
use std::io::{Read, Write};

fn main(rt: HostRuntime) -> io::Result<()> {
    let mut text = Vec::new(rt.alloc());
    rt.reader()
        .take(text::MAX_TEXT as u64 + 1)
        .read_to_end(&mut text)?;
    let mut out = [0u8; statement::STATEMENT_ROOM];
    let length = statement::statement(&text, &mut out);
    io::writer(&rt).write_all(&out[..length])?;
    let length = diagnostics::message(&text, &mut out);
    rt.stderr().write_all(&out[..length])
}
