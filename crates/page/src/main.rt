// `page`: an event text on standard input and one argument, the number of a month; that month's page on standard output, and where the text breaks
// its form on standard error.
// It uses the scanner's numbers, the event text's limit, the page of a text and the diagnostics. A read or a write that fails ends the program with
// its error.
// Of a text that is too long it reads one byte more than the limit, which `as` widens: usize has no `From` into u64.
#![tactic(auto)]

use std::env::FillError;
use std::io;
use std::io::{Read, Write};
use std::process::ExitCode;
use std::rt::Env;

// The one argument, a number.
fn month(rt: &impl Env) -> Option<u32> {
    let mut word = [0u8; 10];
    let length = rt.arg(1, &mut word).ok()?;
    match rt.arg(2, &mut []) {
        Err(FillError::NotPresent) => scanner::number_of(&word[..length]),
        _ => None,
    }
}

fn main(rt: HostRuntime) -> io::Result<ExitCode> {
    let Some(month) = month(&rt) else {
        rt.stderr().write_all(
            b"page: expected one argument, the month, a number as in the event text\n",
        )?;
        return Ok(ExitCode::from(2));
    };
    let mut text = Vec::new(rt.alloc());
    rt.reader()
        .take(text::MAX_TEXT as u64 + 1)
        .read_to_end(&mut text)?;
    let mut out = [0u8; month_page::PAGE_ROOM];
    let length = text_page::text_page(&text, month, &mut out);
    io::writer(&rt).write_all(&out[..length])?;
    let length = diagnostics::message(&text, &mut out);
    rt.stderr().write_all(&out[..length])?;
    Ok(ExitCode::SUCCESS)
}
