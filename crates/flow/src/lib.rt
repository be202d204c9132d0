// Numbers of 32 and 64 bits as bytes, read and written in a stream, all little-endian.
#![tactic(auto)]

ghost use Rattle.std.specs.Prelude.{◌≡◌, ◌⊎◌, ⊤, true, false, ℕ, ◌+◌, ◌-◌, ◌*◌, ◌%◌, ◌≤◌, ◌<◌, length, take, slice_range, IfOk, OnErr};
ghost use Rattle.std.specs.Io.KnownBytes.{Appends, Consumes, IsAtEnd, Keeps};
ghost use Rattle.flow.specs.Flowing as Flowing;
ghost use Rattle.flow.specs.Flowing.{Held};
ghost use Rattle.flow.specs.Streams as Streams;
ghost use Rattle.flow.specs.Streams.{coming, gone, spelled, spelled_all, PutSome};

use std::alloc::AllocError;
use std::io;
use std::io::{Read, Write};
use streams::Page;

// ---- numbers and bytes

// Number i of the bytes, 32 bits each.
fn word(bytes: &[u8], i: usize) -> u32
    requires { 4 * i + 4 ≤ length bytes.now }
    ensures { result ≡ Flowing.word_at bytes.now i }
{
    let (words, _) = bytes.as_chunks();
    u32::from_le_bytes(words[i])
}

// Number i of the bytes, 64 bits each.
pub fn long(bytes: &[u8], i: usize) -> usize
    requires { 8 * i + 8 ≤ length bytes.now }
    ensures { result ≡ Flowing.long_at bytes.now i }
{
    let (longs, _) = bytes.as_chunks();
    usize::from_le_bytes(longs[i])
}

// The list's numbers.
pub fn load(bytes: &[u8], list: &mut [i32])
    requires { 4 * length list.old ≤ length bytes.now }
    ensures { Flowing.Loaded bytes.now list.new }
{
    for (i, number) in list.iter_mut().enumerate() {
        *number = word(bytes, i).cast_signed();
    }
}

// ---- the input, read as it comes

// What waits in rooms that are lent: the bytes of the input from `at` to `end` to be used, the first `used` bytes of the output to be written. After an
// error of a stream there is nothing to go on with: what waited to be written may be written in part, and what was read is lost.
#[derive(Clone, Copy)]
pub struct Places {
    pub at: usize,
    pub end: usize,
    pub used: usize,
}

// The waiting bytes, moved to the front.
fn shift(input: &mut [u8], at: usize, end: usize)
    requires { (at ≤ end) × (end ≤ length input.old) }
    ensures { take (end - at) input.new ≡ slice_range input.old at end }
{
    input.copy_within(at..end, 0);
}

// One read behind the bytes that are there: where they end then.
fn read_on<R: Read>(reader: &mut R, input: &mut [u8], end: usize) -> io::Result<usize>
    requires { end ≤ length input.old }
    ensures ok { IfOk result (λ to. (end ≤ to) × (to ≤ length input.old)) }
    ensures front { IfOk result (λ to. take end input.new ≡ take end input.old) }
    ensures came { IfOk result (λ to. Consumes (R.remaining reader.old) (R.remaining reader.new) (slice_range input.new end to)) }
    ensures done { IfOk result (λ to. to ≡ end → end < length input.old → IsAtEnd (R.remaining reader.new)) }
    ensures err { OnErr result (Keeps (R.remaining reader.old) (R.remaining reader.new)) }
{
    let got = streams::read_some(reader, &mut input[end..])?;
    Ok(end + got)
}

// Reads until there are n bytes or the input ends: where they end then.
fn read_up<R: Read>(reader: &mut R, input: &mut [u8], from: usize, n: usize) -> io::Result<usize>
    requires { from ≤ length input.old }
    ensures ok { IfOk result (λ to. (from ≤ to) × (to ≤ length input.old)) }
    ensures front { IfOk result (λ to. take from input.new ≡ take from input.old) }
    ensures came { IfOk result (λ to. Consumes (R.remaining reader.old) (R.remaining reader.new) (slice_range input.new from to)) }
    ensures done { IfOk result (λ to. to < n → n ≤ length input.old → IsAtEnd (R.remaining reader.new)) }
    ensures err { OnErr result (length input.new ≡ length input.old) }
{
    // Stays: std's `read_exact` reads no further than it is asked, and fails where the input ends.
    let mut end = from;
    while end < n {
        let next = read_on(reader, &mut *input, end)?;
        if next == end {
            return Ok(end);
        }
        end = next;
    }
    Ok(end)
}

// The places once n bytes wait, if so many still come. What was answered is written before the program waits: after an error nothing was read, or all of
// it is written.
pub fn fill<R: Read, W: Write>(
    reader: &mut R,
    writer: &mut W,
    input: &mut [u8],
    output: &[u8],
    places: Places,
    n: usize,
) -> io::Result<Places>
    requires { Held places (length input.old) (length output.now) }
    ensures ok { IfOk result (λ next. Held next (length input.old) (length output.now)) }
    ensures came { IfOk result (λ next. Keeps (coming (R.remaining reader.old) input.old places.at places.end) (coming (R.remaining reader.new) input.new next.at next.end)) }
    ensures went { IfOk result (λ next. Keeps (gone (W.contents writer.old) output.now places.used) (gone (W.contents writer.new) output.now next.used)) }
    ensures done { IfOk result (λ next. next.end - next.at < n → n ≤ length input.old → IsAtEnd (R.remaining reader.new)) }
    ensures err { OnErr result (Keeps (R.remaining reader.old) (R.remaining reader.new)
        ⊎ Appends (W.contents writer.old) (W.contents writer.new) (take places.used output.now)) }
{
    if n <= places.end - places.at {
        return Ok(places);
    }
    writer.write_all(&output[..places.used])?;
    shift(&mut *input, places.at, places.end);
    Ok(Places {
        at: 0,
        end: read_up(reader, input, places.end - places.at, n)?,
        used: 0,
    })
}

// A reader, and the bytes that wait to be used: those of the room from `at` to `end`. After an error of a stream there is nothing to go on with: what
// was read is lost.
#[derive(Drop)]
pub struct Flow<R, const N: usize> {
    pub reader: R,
    pub bytes: [u8; N],
    pub at: usize,
    pub end: usize,
    ghost waits: { at ≤ end },
    ghost ends: { end ≤ N },
}

// A flow is copied where its reader is.
impl<R: Copy, const N: usize> Clone for Flow<R, N> {
    ghost is_clone = { λ x y. y ≡ x };

    ghost is_infallible = { λ _. ⊤ };

    fn clone(&self) -> Result<Self, AllocError> {
        Ok(*self)
    }
}

impl<R: Copy, const N: usize> Copy for Flow<R, N> {}

impl<R: Read, const N: usize> Flow<R, N> {
    // Nothing waits.
    pub fn new(reader: R) -> Self
        ensures { Keeps (R.remaining reader) (coming (R.remaining result.reader) result.bytes result.at result.end) }
    {
        Flow {
            reader,
            bytes: [0; N],
            at: 0,
            end: 0,
        }
    }

    // The waiting bytes, moved to the front.
    fn shift(&mut self)
        ensures { (self.new.reader ≡ self.old.reader) × (self.new.at ≡ 0) × (self.new.end ≡ self.old.end - self.old.at) × (take self.new.end self.new.bytes ≡ slice_range self.old.bytes self.old.at self.old.end) }
    {
        shift(&mut self.bytes, self.at, self.end);
        self.end -= self.at;
        self.at = 0;
    }

    // Whether n bytes wait, once so many have come or the input has ended. What was answered is written before the program waits: after an error nothing
    // was read, or all of it is written.
    pub fn fill<W: Write, const M: usize>(
        &mut self,
        page: &mut Page<W, M>,
        n: usize,
    ) -> io::Result<bool>
        ensures enough { IfOk result (λ there. there ≡ true → n ≤ self.new.end - self.new.at) }
        ensures short { IfOk result (λ there. there ≡ false → self.new.end - self.new.at < n) }
        ensures came { IfOk result (λ _. Keeps (coming (R.remaining self.old.reader) self.old.bytes self.old.at self.old.end) (coming (R.remaining self.new.reader) self.new.bytes self.new.at self.new.end)) }
        ensures went { IfOk result (λ _. Keeps (gone (W.contents page.old.writer) page.old.bytes page.old.used) (gone (W.contents page.new.writer) page.new.bytes page.new.used)) }
        ensures done { IfOk result (λ there. self.new.end - self.new.at < n → n ≤ N → IsAtEnd (R.remaining self.new.reader)) }
        ensures bytes { page.new.bytes ≡ page.old.bytes }
        ensures err { OnErr result (
            (Keeps (R.remaining self.old.reader) (R.remaining self.new.reader) × (self.new.bytes ≡ self.old.bytes) × (self.new.at ≡ self.old.at) × (self.new.end ≡ self.old.end) × (page.new.used ≡ page.old.used))
            ⊎ (Appends (W.contents page.old.writer) (W.contents page.new.writer) (take page.old.used page.old.bytes) × (page.new.used ≡ 0))) }
    {
        if n <= self.end - self.at {
            return Ok(true);
        }
        page.flush()?;
        self.shift();
        self.end = read_up(&mut self.reader, &mut self.bytes, self.end, n)?;
        Ok(n <= self.end)
    }

    // The bytes that wait.
    pub fn waiting(&self) -> &[u8]
        ensures bytes { result.now ≡ slice_range self.now.bytes self.now.at self.now.end }
        ensures count { length result.now ≡ self.now.end - self.now.at }
    {
        let bytes = &self.bytes[..];
        &bytes[self.at..self.end]
    }

    // The first n of them are used.
    pub fn pass(&mut self, n: usize)
        requires { n ≤ self.old.end - self.old.at }
        ensures { (self.new.reader ≡ self.old.reader) × (self.new.bytes ≡ self.old.bytes) × (self.new.at ≡ self.old.at + n) × (self.new.end ≡ self.old.end) }
    {
        self.at += n;
    }
}

// ---- the output

// A number that is written in 32 bits.
pub trait Spelled: Copy {
    ghost bits: { Self → ℕ };

    fn bits(self) -> u32
        ensures { result ≡ bits self };
}

// The lowest 32.
impl Spelled for usize {
    ghost bits = { λ x. x % 4294967296 };

    fn bits(self) -> u32 {
        (self % 4294967296) as u32
    }
}

impl Spelled for i32 {
    ghost bits = { Streams.unsigned };

    fn bits(self) -> u32 {
        self.cast_unsigned()
    }
}

// The number behind the bytes that wait, which are written first where there is no room: how many wait then.
fn put_number<W: Write>(writer: &mut W, output: &mut [u8], used: usize, x: u32) -> io::Result<usize>
    requires { (used ≤ length output.old) × (4 ≤ length output.old) }
    ensures ok { IfOk result (λ end. end ≤ length output.old) }
    ensures went { IfOk result (λ end. Appends (gone (W.contents writer.old) output.old used) (gone (W.contents writer.new) output.new end) (spelled x)) }
    ensures err { OnErr result (output.new ≡ output.old) }
{
    let bytes = x.to_le_bytes();
    streams::put(writer, output, used, &bytes)
}

// Each number: how many bytes wait is lent too, so that after an error it is known what the numbers before have left.
fn put_each<T: Spelled, W: Write>(
    writer: &mut W,
    output: &mut [u8],
    used: &mut usize,
    numbers: &[T],
) -> io::Result<()>
    requires { (used.old ≤ length output.old) × (4 ≤ length output.old) }
    ensures within { used.new ≤ length output.old }
    ensures went { IfOk result (λ _. Appends (gone (W.contents writer.old) output.old used.old) (gone (W.contents writer.new) output.new used.new) (spelled_all T.bits numbers.now)) }
    ensures err { OnErr result (PutSome (gone (W.contents writer.old) output.old used.old) output.new used.new T.bits numbers.now) }
{
    for number in numbers {
        *used = put_number(writer, &mut *output, *used, number.bits())?;
    }
    Ok(())
}

// Each number, behind the first `used` bytes of a room that is lent: how many wait then.
pub fn put_numbers<T: Spelled, W: Write>(
    writer: &mut W,
    output: &mut [u8],
    used: usize,
    numbers: &[T],
) -> io::Result<usize>
    requires { (used ≤ length output.old) × (4 ≤ length output.old) }
    ensures ok { IfOk result (λ end. end ≤ length output.old) }
    ensures went { IfOk result (λ end. Appends (gone (W.contents writer.old) output.old used) (gone (W.contents writer.new) output.new end) (spelled_all T.bits numbers.now)) }
    ensures err { OnErr result (length output.new ≡ length output.old) }
{
    let mut at = used;
    put_each(writer, output, &mut at, numbers)?;
    Ok(at)
}

// Each number, behind the bytes that wait. After an error so do those that came before the one that failed, as far as they weren't written.
pub fn put<T: Spelled, W: Write, const N: usize>(
    page: &mut Page<W, N>,
    numbers: &[T],
) -> io::Result<()>
    requires { 4 ≤ N }
    ensures went { IfOk result (λ _. Appends (gone (W.contents page.old.writer) page.old.bytes page.old.used) (gone (W.contents page.new.writer) page.new.bytes page.new.used) (spelled_all T.bits numbers.now)) }
    ensures err { OnErr result (PutSome (gone (W.contents page.old.writer) page.old.bytes page.old.used) page.new.bytes page.new.used T.bits numbers.now) }
{
    let mut used = page.used;
    let put = put_each(&mut page.writer, &mut page.bytes, &mut used, numbers);
    page.used = used;
    put
}
