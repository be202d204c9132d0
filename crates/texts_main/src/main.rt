// Reads texts, each as two little-endian numbers of 32 bits, its kind and its length, and its bytes; and writes what the program of that kind
// prints for each, as its length and its bytes. The kinds: 0 list, 1 import, 2 export, 3 qasm, 4 trace. It stops where the input ends.
#![tactic(auto)]

ghost use Rattle.std.specs.Prelude.{◌+◌, ◌≤◌, length, OnErr, ◌≡◌};
ghost use Rattle.trace.specs.Clauses.{trace_bytes};
ghost use Rattle.texts_main.specs.Printing.{Prints};

use saying::Said;
use spelling::{ANSWER_BYTES, LIST_BYTES};
use std::convert::AsSlice;
use std::io;
use std::io::{Read, Write};
use streams::Page;
use trace::TRACE_BYTES;

// One byte more than a text may have: of a longer one no more is kept.
const MOST: usize = LIST_BYTES + 1;

// Bytes that wait to be written.
const OUTPUT: usize = 2 * TRACE_BYTES;

// The program that a text is for.
#[derive(Clone, Copy)]
enum Kind {
    List,
    Import,
    Export,
    Qasm,
    Trace,
}

// A number that is no kind is taken for qasm.
impl From<u32> for Kind {
    fn from(number: u32) -> Kind {
        match number {
            0 => Kind::List,
            1 => Kind::Import,
            2 => Kind::Export,
            4 => Kind::Trace,
            _ => Kind::Qasm,
        }
    }
}

// Whether the bytes were filled.
fn fill<R: Read>(reader: &mut R, bytes: &mut [u8]) -> io::Result<bool> {
    let came = streams::read_full(reader, &mut *bytes)?;
    Ok(came == bytes.len())
}

// Reads past n bytes, if so many come.
fn skip<R: Read>(reader: &mut R, n: usize) -> io::Result<bool> {
    let past = io::copy(&mut reader.take(n as u64), &mut io::sink())?;
    Ok(past == n as u64)
}

// What is printed goes behind what waits, its length first. What waits is written first where both don't fit, so that each write ends with an answer.
fn answer<W: Write, O: AsSlice<u8> + Drop, F: FnOnce(&[u8], &mut O) -> Said>(
    page: &mut Page<W, OUTPUT>,
    text: &[u8],
    mut room: O,
    program: F,
) -> io::Result<()>
    requires callable { F.IsAlwaysCallable program }
    requires prints { Prints F.FnOnce program O.items }
    requires short { length (O.items room) ≤ trace_bytes }
{
    let said = program(text, &mut room);
    page.spare(4 + said.length)?;
    page.put(&(said.length as u32).to_le_bytes())?;
    page.put(&room.as_slice()[..said.length])
}

// The answer to a text of a kind.
fn told<W: Write>(page: &mut Page<W, OUTPUT>, kind: Kind, text: &[u8]) -> io::Result<()> {
    match kind {
        Kind::List => answer(page, text, [0u8; ANSWER_BYTES], list::list),
        Kind::Import => answer(page, text, [0u8; ANSWER_BYTES], import::import),
        Kind::Export => answer(page, text, [0u8; ANSWER_BYTES], export::export),
        Kind::Qasm => answer(page, text, [0u8; ANSWER_BYTES], shorten::shorten),
        Kind::Trace => answer(page, text, [0u8; TRACE_BYTES], trace::trace),
    }
}

// One text, if there is one.
fn next<R: Read, W: Write>(reader: &mut R, page: &mut Page<W, OUTPUT>) -> io::Result<Option<()>> {
    let mut kind = [0u8; 4];
    let mut length = [0u8; 4];
    let mut text = [0u8; MOST];
    if !fill(reader, &mut kind)? || !fill(reader, &mut length)? {
        return Ok(None);
    }
    let n = u32::from_le_bytes(length) as usize;
    let k = n.min(MOST);
    if !fill(reader, &mut text[..k])? || !skip(reader, n - k)? {
        return Ok(None);
    }
    told(page, Kind::from(u32::from_le_bytes(kind)), &text[..k])?;
    Ok(Some(()))
}

fn run<R: Read, W: Write>(reader: &mut R, page: &mut Page<W, OUTPUT>) -> io::Result<()> {
    // A proved loop has to end: no run uses up so many rounds.
    for _ in 0..u64::MAX {
        match next(reader, &mut *page) {
            Ok(Some(())) => {}
            Ok(None) => break,
            Err(e) => {
                page.flush()?;
                return Err(e);
            }
        }
    }
    page.flush()
}

fn main(rt: HostRuntime) -> io::Result<()> {
    run(&mut rt.stdin(), &mut Page::new(rt.stdout()))
}
