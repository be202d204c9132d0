// A list, what stands beside it and a refusal, written into a lent room.
#![tactic(auto)]

ghost use Rattle.std.specs.Prelude.{◌≡◌, ◌+◌, ◌*◌, ◌/◌, ◌≤◌, length};
ghost use Rattle.rules.specs.Limits.{width};
ghost use Rattle.text.specs.Clauses.{Prints, line_size, named_size, number_size};
ghost use Rattle.spelling.specs.Texts as Texts;
ghost use Rattle.spelling.specs.Forms.{form_of};
ghost use Rattle.spelling.specs.Heads.{head_of};
ghost use Rattle.printing.specs.Clauses.{section_size, head_size, gates_size, list_size, result_size, Section, Gates, Listable, Printable};

use rules::GATE_WIDTH;
use spelling::{Form, Head};

// Stays: the room is lent from C, and what stands in it behind the text stays as it was, so that a place is handed on.

// Numbers, one to a line.
fn write_lines(out: &mut [u8], at: usize, values: &[u32]) -> usize
    requires { at + line_size * length values.now ≤ length out.old }
    ensures { Prints (line_size * length values.now) (Texts.lines_text values.now) out.old at out.new result }
{
    let mut next = at;
    for value in values {
        next = text::write_line(&mut *out, next, *value);
    }
    next
}

// A word and how many numbers come; then the numbers.
fn write_section(out: &mut [u8], at: usize, word: &[u8], values: &[u32]) -> usize
    requires { Section word.now values.now out.old at }
    ensures { Prints (section_size (length word.now) (length values.now)) (Texts.section_text word.now values.now) out.old at out.new result }
{
    let count = [values.len() as u32];
    let next = text::write_named(&mut *out, at, word, &count);
    write_lines(out, next, values)
}

// A line of signed numbers.
fn write_row(out: &mut [u8], at: usize, row: &[i32]) -> usize
    requires { at + number_size * length row.now ≤ length out.old }
    ensures { Prints (number_size * length row.now) (Texts.row_text row.now) out.old at out.new result }
{
    let n = row.len();
    let mut next = at;
    for (k, value) in row.iter().enumerate() {
        next = text::write_ended(&mut *out, next, *value, spelling::end_of(k, n));
    }
    next
}

// A line for each gate, of the numbers that the form shows.
fn write_rows(out: &mut [u8], at: usize, numbers: &[i32], form: Form) -> usize
    requires { at + number_size * length numbers.now ≤ length out.old }
    ensures { Prints (number_size * length numbers.now) (Texts.rows_text (form_of form) (length numbers.now / width) numbers.now) out.old at out.new result }
{
    let shown = form.per_gate();
    let (rows, _) = numbers.as_chunks::<GATE_WIDTH>();
    let mut next = at;
    for row in rows {
        next = write_row(&mut *out, next, &row[..shown]);
    }
    next
}

fn write_gates(out: &mut [u8], at: usize, numbers: &[i32], form: Form) -> usize
    requires { Gates numbers.now out.old at }
    ensures { Prints (gates_size (length numbers.now)) (Texts.gates_text (form_of form) numbers.now) out.old at out.new result }
{
    let count = [(numbers.len() / GATE_WIDTH) as u32];
    let next = text::write_named(&mut *out, at, b"gates", &count);
    write_rows(out, next, numbers, form)
}

// The head as it was read: four numbers, or five of which the last is how many of a gate's numbers are shown.
fn write_head(out: &mut [u8], at: usize, head: Head) -> usize
    requires { at + head_size ≤ length out.old }
    ensures { Prints head_size (Texts.head_text (head_of head)) out.old at out.new result }
{
    let shown = head.form.per_gate() as u32;
    let n = head.form.head_numbers();
    let values = [head.wires, head.bits, head.qubits, head.terms, shown];
    write_section(out, at, b"head", &values[..n])
}

// The head, and the gates.
pub fn write_list(out: &mut [u8], at: usize, head: Head, numbers: &[i32]) -> usize
    requires { Listable numbers.now out.old at }
    ensures { Prints (list_size (length numbers.now)) (Texts.list_text (head_of head) numbers.now) out.old at out.new result }
{
    let gates = write_head(&mut *out, at, head);
    write_gates(out, gates, numbers, head.form)
}

// A list, and its counts.
pub fn write_result(out: &mut [u8], at: usize, head: Head, numbers: &[i32], counts: &[u32]) -> usize
    requires { Printable numbers.now counts.now out.old at }
    ensures { Prints (result_size (length numbers.now) (length counts.now)) (Texts.result_text (head_of head) numbers.now counts.now) out.old at out.new result }
{
    let last = write_list(&mut *out, at, head, numbers);
    write_section(out, last, b"counts", counts)
}

// A refusal: its number, and what comes with it.
pub fn write_refusal(out: &mut [u8], at: usize, numbers: &[u32]) -> usize
    requires { at + named_size 7 (length numbers.now) ≤ length out.old }
    ensures { Prints (named_size 7 (length numbers.now)) (Texts.refusal_text numbers.now) out.old at out.new result }
{
    text::write_named(out, at, b"refused", numbers)
}
