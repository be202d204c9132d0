// Where a gate of a shortened circuit comes from, written for people: its statement, and a line or two lines of the laboratory's text.
#![tactic(auto)]

ghost use Rattle.std.specs.Prelude.{◌≡◌, ◌+◌, ◌-◌, ◌*◌, ◌/◌, ◌≤◌, length};
ghost use Rattle.rules.specs.Limits.{width};
ghost use Rattle.text.specs.Clauses.{Prints};
ghost use Rattle.origin.specs.Origins as Origins;
ghost use Rattle.origin.specs.Clauses.{row_text, rows_text, note_size, origin_size};

use rules::GATE_WIDTH;

// Bytes of the longest line.
pub const ORIGIN_BYTES: usize = 85;

// Where gates come from: they were copied, or they are those of a block that was written again, which stood on the lines from `first` to `last`.
#[derive(Clone, Copy, Debug, PartialEq, Eq)]
pub enum Source {
    Copied,
    Again { first: u32, last: u32 },
}

// The two lines between which a block stood.
fn write_lines(out: &mut [u8], at: usize, first: u32, last: u32) -> usize
    requires { at + note_size ≤ length out.old }
    ensures { Prints note_size (Origins.lines_note first last) out.old at out.new result }
{
    let word = text::write_word(&mut *out, at, b" // lines ");
    let from = text::write_natural(&mut *out, word, first);
    text::write_named(out, from, b" to", &[last])
}

// The place of the last byte that was written, if there is one.
fn last_place(at: usize, next: usize) -> usize
    requires { at ≤ next }
    ensures { result ≡ at + (next - at - 1) }
{
    if at < next { next - 1 } else { at }
}

// A gate's line: the note takes the place of the statement's LF. Behind a gate that was copied stands its own line.
fn write_origin(out: &mut [u8], at: usize, row: &[i32; GATE_WIDTH], source: Source) -> usize
    requires { at + origin_size ≤ length out.old }
    ensures { Prints origin_size (row_text source row.now) out.old at out.new result }
{
    let next = qasm::write_gate(&mut *out, at, row);
    let end = last_place(at, next);
    match source {
        Source::Copied => text::write_named(out, end, b" // line", &[gate::nat(row[5])]),
        Source::Again { first, last } => write_lines(out, end, first, last),
    }
}

// A line for each gate of one source.
pub fn write_origins(out: &mut [u8], at: usize, numbers: &[i32], source: Source) -> usize
    requires { at + origin_size * (length numbers.now / width) ≤ length out.old }
    ensures { Prints (origin_size * (length numbers.now / width)) (rows_text source (length numbers.now / width) numbers.now) out.old at out.new result }
{
    let (rows, _) = numbers.as_chunks::<GATE_WIDTH>();
    let mut next = at;
    for row in rows {
        next = write_origin(&mut *out, next, row, source);
    }
    next
}
