// The laboratories' text, OpenQASM 2.0, read and written by one table of spellings.
#![tactic(auto)]

ghost use Rattle.std.specs.Prelude.{◌≡◌, ◌+◌, ◌*◌, ◌^◌, ◌/◌, ◌≤◌, ◌<◌, ltb, length, get_or, unwrap_or, IfSome, IfOk};
ghost use Rattle.rules.specs.Limits.{width, last_code};
ghost use Rattle.text.specs.Clauses.{Reads, Leaves, Prints};
ghost use Rattle.qasm.specs.Table as Table;
ghost use Rattle.qasm.specs.Statement as Statement;
ghost use Rattle.qasm.specs.Import as Import;
ghost use Rattle.qasm.specs.Export as Export;
ghost use Rattle.qasm.specs.Clauses.{longest, first_part, second_part, StandsFor, ReadsOpening, ReadsBody, ReadsQasm, Writable, piece_size, template_size, statement_size, opening_size, qasm_size};

use rules::{GATE_WIDTH, MAX_BITS, MAX_WIRES};

// A line for each code, LF alone where it isn't spelled. F, S, T and K stand for first, second, third and turn. There is no code 0.
const TEMPLATES: [&[u8]; 28] = [
    b"",
    b"x q[F];\n",
    b"t q[F];\n",
    b"tdg q[F];\n",
    b"s q[F];\n",
    b"sdg q[F];\n",
    b"z q[F];\n",
    b"rz(K*pi/4) q[F];\n",
    b"cx q[F],q[S];\n",
    b"cz q[F],q[S];\n",
    b"h q[F];\n",
    b"y q[F];\n",
    b"\n",
    b"reset q[F];\n",
    b"\n",
    b"\n",
    b"\n",
    b"\n",
    b"\n",
    b"\n",
    b"\n",
    b"\n",
    b"\n",
    b"\n",
    b"ccx q[F],q[S],q[T];\n",
    b"\n",
    b"\n",
    b"measure q[F] -> c[S];\n",
];

// The first line that is wrong or missing; too many gates; or too many wires or bits.
#[derive(Clone, Copy, Debug, PartialEq, Eq)]
pub enum Wrong {
    Line(usize),
    Many,
    Large,
}

// The lines before the gates: the registers' sizes, 0 where one is left out, the number of the next line, and the text behind them.
#[derive(Clone, Copy)]
struct Opening<'a> {
    wires: u32,
    bits: u32,
    line: usize,
    rest: &'a [u8],
}

// ---- the table

// The spelling of a code; nothing where there is no such code.
fn template(code: u32) -> &'static [u8]
    ensures { result.now ≡ Table.template code }
{
    let c = code as usize;
    if c < TEMPLATES.len() {
        TEMPLATES[c]
    } else {
        b""
    }
}

#[tactic(auto, unfolding(crate::specs::Table::spelled))]
fn is_spelled(code: u32) -> bool
    ensures { result ≡ Table.spelled code }
{
    1 < template(code).len()
}

// The place of the number that a byte of a template stands for, where it isn't itself.
#[tactic(auto, unfolding(crate::specs::Table::field_of))]
fn field_of(b: u8) -> Option<usize>
    ensures { StandsFor b result }
{
    match b {
        b'F' => Some(1),
        b'S' => Some(2),
        b'T' => Some(3),
        b'K' => Some(4),
        _ => None,
    }
}

// ---- reading by a template

// A number goes into its place.
#[tactic(auto, unfolding(crate::specs::Statement::read_piece))]
fn read_piece<'a>(text: &'a [u8], b: u8, row: &mut [i32; GATE_WIDTH]) -> Option<&'a [u8]>
    ensures { Leaves row.new result (Statement.read_piece b text.now row.old) }
{
    let Some(k) = field_of(b) else {
        return text::read_byte(text, b);
    };
    let (value, rest) = text::read_integer(text)?;
    row[k] = value;
    Some(rest)
}

// From a row's numbers on.
fn read_by<'a>(
    text: &'a [u8],
    template: &[u8],
    row: [i32; GATE_WIDTH],
) -> Option<([i32; GATE_WIDTH], &'a [u8])>
    ensures { Reads result (Statement.read_by template.now text.now row) }
{
    let mut row = row;
    let mut rest = text;
    for b in template {
        rest = read_piece(rest, *b, &mut row)?;
    }
    Some((row, rest))
}

// ---- a gate's line

// A gate of this code, if it is spelled.
#[tactic(auto, unfolding(crate::specs::Statement::read_as))]
fn read_as(text: &[u8], code: u32) -> Option<([i32; GATE_WIDTH], &[u8])>
    requires { code < 2 ^ 31 }
    ensures { Reads result (Statement.read_as code text.now) }
{
    if !is_spelled(code) {
        return None;
    }
    read_by(text, template(code), [code as i32, 0, 0, 0, 0, 0])
}

// The byte at a place, or 0 behind the text.
fn byte_at(text: &[u8], i: usize) -> u8
    ensures { result ≡ get_or text.now i 0 }
{
    text.get(i).copied().unwrap_or(0)
}

// What the first and the second byte of a statement tell of its code: their sum is the only one whose spelling can begin so.
fn first_part(b: u8) -> u32
    ensures value { result ≡ first_part b }
    ensures most { result ≤ 20 }
{
    match b {
        b'x' => 1,
        b't' => 2,
        b's' => 4,
        b'z' | b'r' => 6,
        b'c' => 8,
        b'h' => 10,
        b'y' => 11,
        b'm' => 20,
        _ => 0,
    }
}

fn second_part(b: u8) -> u32
    ensures value { result ≡ second_part b }
    ensures most { result ≤ 16 }
{
    match b {
        b'd' | b'z' => 1,
        b'e' => 7,
        b'c' => 16,
        _ => 0,
    }
}

// A gate of any code that is spelled.
fn read_gate(text: &[u8]) -> Option<([i32; GATE_WIDTH], &[u8])>
    ensures { Reads result (Statement.any_gate text.now) }
{
    read_as(
        text,
        first_part(byte_at(text, 0)) + second_part(byte_at(text, 1)),
    )
}

// A gate that is right on so many wires and bits.
#[tactic(auto, unfolding(crate::specs::Statement::statement))]
fn read_statement(text: &[u8], wires: usize, bits: usize) -> Option<([i32; GATE_WIDTH], &[u8])>
    ensures { Reads result (Statement.statement wires bits text.now) }
{
    let (row, rest) = read_gate(text)?;
    match gate::fault_at(&row, wires, bits, 0) {
        Some(_) => None,
        None => Some((row, rest)),
    }
}

// ---- import

// A register's size.
#[tactic(auto, unfolding(crate::specs::Import::register))]
fn read_register<'a>(text: &'a [u8], template: &[u8]) -> Option<(u32, &'a [u8])>
    ensures { Reads result (Import.register template.now text.now) }
{
    let (row, rest) = read_by(text, template, [0; GATE_WIDTH])?;
    let size = gate::nat(row[1]);
    if 0 < size { Some((size, rest)) } else { None }
}

fn read_opening(text: &[u8]) -> Result<Opening<'_>, Wrong>
    ensures lines { ReadsOpening result (Import.opening text.now) }
    ensures few { IfOk result (λ o. o.line ≤ 5) }
{
    let rest = text::read_word(text, b"OPENQASM 2.0;\n").ok_or(Wrong::Line(1))?;
    let rest = text::read_word(rest, b"include \"qelib1.inc\";\n").ok_or(Wrong::Line(2))?;
    let (wires, rest) = read_register(rest, b"qreg q[F];\n").unwrap_or((0, rest));
    let (bits, rest) = read_register(rest, b"creg c[F];\n").unwrap_or((0, rest));
    Ok(Opening {
        wires,
        bits,
        line: 3 + (0 < wires) as usize + (0 < bits) as usize,
        rest,
    })
}

// A statement a line up to the end of the text, all of them, also beyond the most gates: how many there are. Each gate has its statement's line.
fn read_body(
    text: &[u8],
    line: usize,
    wires: usize,
    bits: usize,
    most: usize,
    numbers: &mut [i32],
) -> Result<usize, Wrong>
    requires line_bound { (line ≤ 5) × (length text.now ≤ longest) }
    requires most_in_bounds { width * most ≤ length numbers.old }
    ensures { ReadsBody (Import.body (length text.now) wires bits line text.now) most numbers.old numbers.new result }
{
    let mut rest = text;
    let mut i = 0;
    while !rest.is_empty() {
        let (row, next) = read_statement(rest, wires, bits).ok_or(Wrong::Line(line + i))?;
        let mut row = row;
        row[5] = (line + i) as i32;
        if i < most {
            numbers[GATE_WIDTH * i..GATE_WIDTH * (i + 1)].copy_from_slice(&row);
        }
        rest = next;
        i += 1;
    }
    Ok(i)
}

// The whole text, of at most so many gates: wires, bits, and how many gates. Their numbers go into the room. The gates are counted before wires and bits.
// A text as long as asked has no more lines than a gate's number can say.
pub fn read_qasm(text: &[u8], most: usize, numbers: &mut [i32]) -> Result<(u32, u32, usize), Wrong>
    requires text_len_bound { length text.now ≤ longest }
    requires most_in_bounds { width * most ≤ length numbers.old }
    ensures { ReadsQasm text.now most numbers.old numbers.new result }
{
    let o = read_opening(text)?;
    let wires = o.wires;
    let bits = o.bits;
    let count = read_body(o.rest, o.line, wires as usize, bits as usize, most, numbers)?;
    if most < count {
        return Err(Wrong::Many);
    }
    if (MAX_WIRES < wires as usize) | (MAX_BITS < bits as usize) {
        return Err(Wrong::Large);
    }
    Ok((wires, bits, count))
}

// ---- export
// Stays: the room is lent from C, and what stands in it behind the text stays as it was, so that a place is handed on.

#[tactic(auto, using(crate::proofs::Pieces::printed_short), unfolding(crate::specs::Statement::piece))]
fn write_piece(out: &mut [u8], at: usize, b: u8, row: &[i32; GATE_WIDTH]) -> usize
    requires { at + piece_size b ≤ length out.old }
    ensures { Prints (piece_size b) (Statement.piece b row.now) out.old at out.new result }
{
    match field_of(b) {
        Some(k) => text::write_integer(out, at, row[k]),
        None => text::write_byte(out, at, b),
    }
}

fn write_by(out: &mut [u8], at: usize, template: &[u8], row: &[i32; GATE_WIDTH]) -> usize
    requires { at + template_size template.now ≤ length out.old }
    ensures { Prints (template_size template.now) (Statement.spell_by template.now row.now) out.old at out.new result }
{
    let mut next = at;
    for b in template {
        next = write_piece(&mut *out, next, *b, row);
    }
    next
}

// A gate's line. A code that isn't spelled has no bytes but LF.
pub fn write_gate(out: &mut [u8], at: usize, row: &[i32; GATE_WIDTH]) -> usize
    requires { at + statement_size ≤ length out.old }
    ensures { Prints statement_size (Statement.statement_text row.now) out.old at out.new result }
{
    write_by(out, at, template(gate::nat(row[0])), row)
}

// A line for each gate.
fn write_gates(out: &mut [u8], at: usize, numbers: &[i32]) -> usize
    requires { at + statement_size * (length numbers.now / width) ≤ length out.old }
    ensures { Prints (statement_size * (length numbers.now / width)) (Export.statements_text (length numbers.now / width) numbers.now) out.old at out.new result }
{
    let (rows, _) = numbers.as_chunks::<GATE_WIDTH>();
    let mut next = at;
    for row in rows {
        next = write_gate(&mut *out, next, row);
    }
    next
}

// Left out where its size is 0.
fn write_register(out: &mut [u8], at: usize, template: &[u8], size: u32) -> usize
    requires { (at + template_size template.now ≤ length out.old) × (size < 2 ^ 31) }
    ensures { Prints (template_size template.now) (Export.register_text template.now size) out.old at out.new result }
{
    if size == 0 {
        return at;
    }
    write_by(out, at, template, &[0, size as i32, 0, 0, 0, 0])
}

// The lines before the gates.
fn write_opening(out: &mut [u8], at: usize, wires: u32, bits: u32) -> usize
    requires opening_size_in_bounds { at + opening_size ≤ length out.old }
    requires wires_bound { (wires < 2 ^ 31) × (bits < 2 ^ 31) }
    ensures { Prints opening_size (Export.opening_text wires bits) out.old at out.new result }
{
    let version = text::write_word(&mut *out, at, b"OPENQASM 2.0;\n");
    let include = text::write_word(&mut *out, version, b"include \"qelib1.inc\";\n");
    let q = write_register(&mut *out, include, b"qreg q[F];\n", wires);
    write_register(out, q, b"creg c[F];\n", bits)
}

// A list of so many wires and bits.
pub fn write_qasm(out: &mut [u8], at: usize, wires: u32, bits: u32, numbers: &[i32]) -> usize
    requires { Writable wires bits numbers.now out.old at }
    ensures { Prints (qasm_size (length numbers.now)) (Export.qasm_text wires bits numbers.now) out.old at out.new result }
{
    let next = write_opening(&mut *out, at, wires, bits);
    write_gates(out, next, numbers)
}

// The index of the first gate that isn't spelled.
pub fn unspelled(numbers: &[i32]) -> Option<usize>
    ensures index { unwrap_or result (length numbers.now / width) ≡ Export.unspelled numbers.now }
    ensures inside { IfSome result (λ i. i < length numbers.now / width) }
{
    for i in 0..numbers.len() / GATE_WIDTH {
        if !is_spelled(gate::nat(numbers[GATE_WIDTH * i])) {
            return Some(i);
        }
    }
    None
}
