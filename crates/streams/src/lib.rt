// A stream read into a buffer, and one written from a room.
#![tactic(auto)]

ghost use Rattle.std.specs.Prelude.{◌≡◌, ℕ, ◌+◌, ◌<◌, ◌≤◌, length, take, IfOk, OnErr};
ghost use Rattle.std.specs.Io.{ReadsAtMost};
ghost use Rattle.std.specs.Io.KnownBytes.{Appends, Consumes, IsAtEnd, Keeps, ReadConsumes};
ghost use Rattle.streams.specs.Waiting.{gone};

use std::io;
use std::io::{ErrorKind, Read, Write};

// One read, and again where a signal interrupts it before a byte has come.
pub fn read_some<R: Read>(reader: &mut R, buffer: &mut [u8]) -> io::Result<usize>
    ensures bound { ReadsAtMost result buffer.new }
    ensures bytes { ReadConsumes (R.remaining reader.old) (R.remaining reader.new) result buffer.new }
{
    for _ in 1..u64::MAX {
        match reader.read(buffer) {
            Ok(n) => return Ok(n),
            Err(e) => {
                if e.kind() != ErrorKind::Interrupted {
                    return Err(e);
                }
            }
        }
    }
    reader.read(buffer)
}

// Reads until the buffer is full or the input ends: how many bytes it put at the start of the buffer. After an error what had come stands there.
pub fn read_full<R: Read>(reader: &mut R, buffer: &mut [u8]) -> io::Result<usize>
    ensures bound { ReadsAtMost result buffer.new }
    ensures bytes { IfOk result (λ n. Consumes (R.remaining reader.old) (R.remaining reader.new) (take n buffer.new)) }
    ensures end { IfOk result (λ n. n < length buffer.new → IsAtEnd (R.remaining reader.new)) }
    ensures err { OnErr result ((n : ℕ) × (n ≤ length buffer.new) × Consumes (R.remaining reader.old) (R.remaining reader.new) (take n buffer.new)) }
{
    // Stays: std's `read_exact` fails where the input ends, and says little of what came.
    let mut done = 0;
    while done < buffer.len() {
        let n = read_some(reader, &mut buffer[done..])?;
        if n == 0 {
            return Ok(done);
        }
        done += n;
    }
    Ok(done)
}

// Room for n bytes behind the first `used` of a room, which wait to be written, and are where they take too much: how many wait then.
fn spare<W: Write>(writer: &mut W, room: &[u8], used: usize, n: usize) -> io::Result<usize>
    requires { (used ≤ length room.now) × (n ≤ length room.now) }
    ensures fits { IfOk result (λ at. at + n ≤ length room.now) }
    ensures went { IfOk result (λ at. Keeps (gone (W.contents writer.old) room.now used) (gone (W.contents writer.new) room.now at)) }
{
    if n <= room.len() - used {
        return Ok(used);
    }
    writer.write_all(&room[..used])?;
    Ok(0)
}

// Some bytes behind the first `used` of a room that is lent, which wait to be written: how many wait then.
pub fn put<W: Write>(
    writer: &mut W,
    room: &mut [u8],
    used: usize,
    bytes: &[u8],
) -> io::Result<usize>
    requires { (used ≤ length room.old) × (length bytes.now ≤ length room.old) }
    ensures ok { IfOk result (λ end. end ≤ length room.old) }
    ensures went { IfOk result (λ end. Appends (gone (W.contents writer.old) room.old used) (gone (W.contents writer.new) room.new end) bytes.now) }
    ensures err { OnErr result (room.new ≡ room.old) }
{
    let at = spare(writer, &*room, used, bytes.len())?;
    let end = at + bytes.len();
    room[at..end].copy_from_slice(bytes);
    Ok(end)
}

// A writer, and the bytes that wait to be written: the first `used` of the room. After an error what waited may be written in part.
#[derive(Drop)]
pub struct Page<W, const N: usize> {
    pub writer: W,
    pub bytes: [u8; N],
    pub used: usize,
    ghost within: { used ≤ N },
}

impl<W: Write, const N: usize> Page<W, N> {
    // Nothing waits.
    pub fn new(writer: W) -> Self
        ensures { Keeps (W.contents writer) (gone (W.contents result.writer) result.bytes result.used) }
    {
        Page {
            writer,
            bytes: [0; N],
            used: 0,
        }
    }

    // What waits is written.
    pub fn flush(&mut self) -> io::Result<()>
        ensures went { IfOk result (λ _. Keeps (gone (W.contents self.old.writer) self.old.bytes self.old.used) (gone (W.contents self.new.writer) self.new.bytes self.new.used)) }
        ensures none { IfOk result (λ _. self.new.used ≡ 0) }
        ensures bytes { self.new.bytes ≡ self.old.bytes }
        ensures err { OnErr result (self.new.used ≡ self.old.used) }
    {
        self.writer.write_all(&self.bytes[..self.used])?;
        self.used = 0;
        Ok(())
    }

    // Room for n bytes, for which what waits is written where it takes too much.
    pub fn spare(&mut self, n: usize) -> io::Result<()>
        requires { n ≤ N }
        ensures fits { IfOk result (λ _. self.new.used + n ≤ N) }
        ensures went { IfOk result (λ _. Keeps (gone (W.contents self.old.writer) self.old.bytes self.old.used) (gone (W.contents self.new.writer) self.new.bytes self.new.used)) }
        ensures bytes { self.new.bytes ≡ self.old.bytes }
        ensures err { OnErr result (self.new.used ≡ self.old.used) }
    {
        self.used = spare(&mut self.writer, &self.bytes, self.used, n)?;
        Ok(())
    }

    // Some bytes behind those that wait.
    pub fn put(&mut self, bytes: &[u8]) -> io::Result<()>
        requires { length bytes.now ≤ N }
        ensures went { IfOk result (λ _. Appends (gone (W.contents self.old.writer) self.old.bytes self.old.used) (gone (W.contents self.new.writer) self.new.bytes self.new.used) bytes.now) }
        ensures err { OnErr result ((self.new.bytes ≡ self.old.bytes) × (self.new.used ≡ self.old.used)) }
    {
        self.used = put(&mut self.writer, &mut self.bytes, self.used, bytes)?;
        Ok(())
    }
}
