// The text of a list, read line by line.
#![tactic(auto)]

ghost use Rattle.std.specs.Prelude.{◌≡◌, ◌+◌, ◌*◌, ◌^◌, ◌≤◌, ◌<◌, length, IfOk};
ghost use Rattle.rules.specs.Limits.{width};
ghost use Rattle.text.specs.Clauses.{Reads};
ghost use Rattle.spelling.specs.Forms.{form_of};
ghost use Rattle.spelling.specs.Reading as Spec;
ghost use Rattle.spelling.specs.Heads.{head_of};
ghost use Rattle.reading.specs.Clauses.{ReadsForm, ReadsLines, ReadsRow, ReadsRows, Legible, ReadsList, ReadsText};

use rules::GATE_WIDTH;
use spelling::{Form, Head};

// Why a text isn't read: a line is malformed, missing or surplus, and its number; or there are too many gates, and the line of `gates`.
#[derive(Clone, Copy, Debug, PartialEq, Eq)]
pub enum Wrong {
    Line(usize),
    Many(usize),
}

// A list that was read: its head, how many gates, the number of the line behind it, and the text behind it.
#[derive(Clone, Copy)]
pub struct Listed<'a> {
    pub head: Head,
    pub gates: usize,
    pub line: usize,
    pub rest: &'a [u8],
}

// `head 4` or `head 5`: how many numbers it has.
#[tactic(auto, unfolding(spelling::specs::Reading::head_line))]
fn read_first(text: &[u8]) -> Option<(u32, &[u8])>
    ensures { Reads result (Spec.head_line text.now) }
{
    let (value, rest) = text::read_count(text, b"head")?;
    if value == 4 || value == 5 {
        Some((value, rest))
    } else {
        None
    }
}

// The form of a head of n numbers: that of `head 4` has no line; that of `head 5` is its fifth number.
#[tactic(auto, unfolding(spelling::specs::Reading::form_line))]
fn read_form(text: &[u8], n: u32) -> Option<(Form, &[u8])>
    ensures { ReadsForm result (Spec.form_line n text.now) }
{
    if n == 4 {
        return Some((Form::Four, text));
    }
    let (value, rest) = text::read_line(text)?;
    match value {
        5 => Some((Form::Five, rest)),
        6 => Some((Form::Six, rest)),
        _ => None,
    }
}

// A head from a line on: the head, the number of the line behind it, and the text behind it.
#[tactic(auto, unfolding(spelling::specs::Reading::head_at))]
fn read_head(text: &[u8], line: usize) -> Result<(Head, usize, &[u8]), Wrong>
    requires { line < 2 ^ 32 }
    ensures lines { ReadsLines head_of result (Spec.head_at line text.now) }
    ensures near { IfOk result (λ x. x.1 < 2 ^ 34) }
{
    let (n, rest) = read_first(text).ok_or(Wrong::Line(line))?;
    let (wires, rest) = text::read_line(rest).ok_or(Wrong::Line(line + 1))?;
    let (bits, rest) = text::read_line(rest).ok_or(Wrong::Line(line + 2))?;
    let (qubits, rest) = text::read_line(rest).ok_or(Wrong::Line(line + 3))?;
    let (terms, rest) = text::read_line(rest).ok_or(Wrong::Line(line + 4))?;
    let (form, rest) = read_form(rest, n).ok_or(Wrong::Line(line + 5))?;
    let head = Head {
        wires,
        bits,
        qubits,
        terms,
        form,
    };
    Ok((head, line + 1 + n as usize, rest))
}

// A line of as many numbers as the room holds.
fn read_row<'a>(text: &'a [u8], numbers: &mut [i32]) -> Option<&'a [u8]>
    ensures { ReadsRow result (Spec.row (length numbers.old) text.now) numbers.old numbers.new }
{
    let n = numbers.len();
    let mut rest = text;
    for k in 0..n {
        let (value, next) = text::read_ended(rest, spelling::end_of(k, n))?;
        numbers[k] = value;
        rest = next;
    }
    Some(rest)
}

// A gate's line. Where it shows five numbers, the gate's line number is 0.
fn read_gate<'a>(text: &'a [u8], gate: &mut [i32], form: Form) -> Option<&'a [u8]>
    requires { length gate.old ≡ width }
    ensures { ReadsRow result (Spec.gate_row (form_of form) text.now) gate.old gate.new }
{
    let shown = form.per_gate();
    let rest = read_row(text, &mut gate[..shown])?;
    gate[shown..].fill(0);
    Some(rest)
}

// The lines of n gates, from a line on: the number of the line behind them, and the text behind them.
fn read_rows<'a>(
    text: &'a [u8],
    line: usize,
    n: usize,
    numbers: &mut [i32],
    form: Form,
) -> Result<(usize, &'a [u8]), Wrong>
    requires line_in_bounds { line ≤ 2 ^ 34 }
    requires n_in_bounds { width * n ≤ length numbers.old }
    ensures { ReadsRows result (Spec.rows (form_of form) n line text.now) numbers.old numbers.new }
{
    let mut rest = text;
    for i in 0..n {
        let gate = &mut numbers[GATE_WIDTH * i..GATE_WIDTH * (i + 1)];
        rest = read_gate(rest, gate, form).ok_or(Wrong::Line(line + i))?;
    }
    Ok((line + n, rest))
}

// A list from a line on. The gates' numbers go into the room, which holds those of the most gates.
pub fn read_list<'a>(
    text: &'a [u8],
    line: usize,
    most: usize,
    numbers: &mut [i32],
) -> Result<Listed<'a>, Wrong>
    requires { Legible line most numbers.old }
    ensures { ReadsList text.now line most numbers.old numbers.new result }
{
    let (head, line, rest) = read_head(text, line)?;
    let (count, rest) = text::read_count(rest, b"gates").ok_or(Wrong::Line(line))?;
    let count = count as usize;
    if most < count {
        return Err(Wrong::Many(line));
    }
    let (last, end) = read_rows(rest, line + 1, count, numbers, head.form)?;
    Ok(Listed {
        head,
        gates: count,
        line: last,
        rest: end,
    })
}

// The whole text, of a list of at most so many gates: the head, and how many gates.
pub fn read_text(text: &[u8], most: usize, numbers: &mut [i32]) -> Result<(Head, usize), Wrong>
    requires { width * most ≤ length numbers.old }
    ensures { ReadsText text.now most numbers.old numbers.new result }
{
    let list = read_list(text, 1, most, numbers)?;
    if list.rest.is_empty() {
        Ok((list.head, list.gates))
    } else {
        Err(Wrong::Line(list.line))
    }
}
