// The transcripts of texts that break their form, at each kind of line, and of texts beside them that do not; and of texts with prices by day.
// It uses the transcript.
// The file stdin has the cases, each its name, which begins with `#`, and its text, a `%` after both. What follows a `*` stands in the text
// 4,675 times.
// A name has `P` where the usual terms and a payment of 6000 on day 0 stand first in the text, and `T` where the terms do.
// The file stdout is worked out from documents 01 and 02 by hand; none of its lines is copied from a run.
#![tactic(auto)]

use std::io;
use std::io::{BufWriter, Read, Write};
use text::MAX_TEXT;
use transcript::TRANSCRIPT_ROOM;

// A transcript; of a long one, its length and its last bytes.
fn say(to: &mut impl Write, transcript: &[u8]) -> io::Result<()> {
    let length = transcript.len();
    if length < 4096 {
        return to.write_all(transcript);
    }
    writeln!(to, "{length} bytes, the last of them")?;
    to.write_all(&transcript[length - 67..])
}

fn show(to: &mut impl Write, text: &[u8]) -> io::Result<()> {
    let mut out = [0u8; TRANSCRIPT_ROOM];
    let length = transcript::transcript(text, &mut out);
    say(to, &out[..length])
}

// As `show`, but the length alone, which is 0.
fn short_buffer(to: &mut impl Write) -> io::Result<()> {
    let mut out = [0u8; TRANSCRIPT_ROOM - 1];
    let length = transcript::transcript(b"", &mut out);
    writeln!(to, "# a buffer of 655359 bytes")?;
    writeln!(to, "{length} bytes")
}

// The lines and 4,675 times the piece, but for the pieces that do not fit into one byte more than the longest text has.
fn long(rt: &HostRuntime, to: &mut impl Write, lines: &[u8], piece: &[u8]) -> io::Result<()> {
    let mut text = Vec::new(rt.alloc());
    text.extend_from_slice(lines)?;
    for _ in 0..4675 {
        if text.len().saturating_add(piece.len()) <= MAX_TEXT + 1 {
            text.extend_from_slice(piece)?;
        }
    }
    show(to, &text)
}

// A name, or a text.
fn one(rt: &HostRuntime, to: &mut impl Write, part: &[u8]) -> io::Result<()> {
    if part.starts_with(b"#") {
        return to.write_all(part);
    }
    match part.iter().position(|b| *b == b'*') {
        Some(star) => long(rt, to, &part[..star], &part[star + 1..]),
        None => show(to, part),
    }
}

// The parts, each ended by a `%`.
fn all(rt: &HostRuntime, to: &mut impl Write, cases: &[u8]) -> io::Result<()> {
    for part in cases.split_inclusive(|b| *b == b'%') {
        if let Some(part) = part.strip_suffix(b"%") {
            one(rt, to, part)?;
        }
    }
    Ok(())
}

// The cases are the first 65,536 bytes of standard input. (For these two lines a crate of the programs would be no
// shorter.)
fn main(rt: HostRuntime) -> io::Result<()> {
    let mut cases = Vec::new(rt.alloc());
    rt.reader().take(65536).read_to_end(&mut cases)?;
    let mut to = BufWriter::new(rt.alloc(), io::writer(&rt))?;
    all(&rt, &mut to, &cases)?;
    short_buffer(&mut to)?;
    to.flush()
}
