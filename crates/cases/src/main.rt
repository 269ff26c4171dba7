// The case runner: each line of standard input is a request, and one line answers it. So document 01's cases, and vectors from outside, are run
// through the compiled code and compared. A request that is not of the form, or longer than 1 MiB, answers `?`.
#![tactic(auto)]

mod answers;
mod calls;
mod hex;
mod lookups;
mod request;
mod said;
mod transfers;

use said::say_unknown;
use std::io::{self, BufWriter, Read, Write};
use text::scan;

// How many bytes are read before any line of them is answered, so that what sends as many need not take an answer before: the most that a request has, and
// the end of its line.
const AHEAD: usize = 1048577;

// Reads after the first `have` bytes until the buffer is full or the input has ended: the bytes that the buffer then has.
fn read_ahead<'a, R: Read>(
    input: &mut R,
    buf: &'a mut [u8],
    have: usize,
) -> io::Result<&'a mut [u8]> {
    let mut full = have;
    while full < buf.len() {
        let got = input.read(&mut buf[full..])?;
        if got == 0 {
            return Ok(&mut buf[..full]);
        }
        full += got;
    }
    Ok(buf)
}

fn answer_line<W: Write>(reply: &mut W, line: &mut [u8]) -> io::Result<()> {
    answers::answer(reply, line)?;
    reply.write_all(b"\n")
}

// Answers each whole line from a place on, and gives the place after the last of them.
fn answer_lines<W: Write>(reply: &mut W, text: &mut [u8], from: usize) -> io::Result<usize> {
    let mut at = from;
    while at < text.len() {
        let size = scan::first(&text[at..], b'\n');
        if text.len() - at <= size {
            break;
        }
        answer_line(reply, &mut text[at..at + size])?;
        at += size + 1;
    }
    Ok(at)
}

// Where the first request begins: after a line that was too long, where one is being passed over. None where its end is still to come.
fn start_of(text: &[u8], passing: bool) -> Option<usize> {
    if !passing {
        return Some(0);
    }
    let size = scan::first(text, b'\n');
    if text.len() <= size {
        return None;
    }
    Some(size + 1)
}

// Answers the lines that end in the text, and moves what follows them to the front; the last line of an input that has ended is answered without its end.
// How many bytes then stand in front, or None where they are of a line that is too long, and so of no use.
fn answer_text<W: Write>(
    reply: &mut W,
    text: &mut [u8],
    passing: bool,
    ended: bool,
) -> io::Result<Option<usize>> {
    let Some(from) = start_of(text, passing) else {
        return Ok(None);
    };
    let used = answer_lines(reply, text, from)?.min(text.len());
    if ended {
        if used < text.len() {
            answer_line(reply, &mut text[used..])?;
        }
        return Ok(Some(0));
    }
    if used == 0 {
        say_unknown(reply)?;
        reply.write_all(b"\n")?;
        return Ok(None);
    }
    text.copy_within(used.., 0);
    Ok(Some(text.len() - used))
}

// Answers the requests until the input has ended.
fn serve<R: Read, W: Write>(input: &mut R, reply: &mut W, buf: &mut [u8]) -> io::Result<()> {
    let room = buf.len();
    let mut begun = Some(0);
    for _ in 0..u64::MAX {
        let text = read_ahead(input, buf, begun.unwrap_or(0))?;
        let ended = text.len() < room;
        begun = answer_text(reply, text, begun.is_none(), ended)?;
        if ended {
            break;
        }
    }
    Ok(())
}

fn main(rt: HostRuntime) -> io::Result<()> {
    let mut reply = BufWriter::new(rt.alloc(), rt.stdout())?;
    let mut buf = Vec::with_capacity(rt.alloc(), AHEAD)?;
    buf.resize(AHEAD, 0)?;
    serve(&mut rt.stdin(), &mut reply, &mut buf)?;
    reply.flush()
}
