// Gates as numbers: the check of a list, a gate read and written, and counts.
#![tactic(auto)]

ghost use Rattle.std.specs.Prelude.{◌≡◌, ◌+◌, ◌*◌, ◌^◌, ◌≤◌, ◌<◌, length};
ghost use Rattle.rules.specs.Limits.{width};
ghost use Rattle.rules.specs.Gate as Codes;
ghost use Rattle.rules.specs.Gate.{gate1, gate2};
ghost use Rattle.rules.specs.Numbers as Numbers;
ghost use Rattle.rules.specs.Refusal as Refusals;
ghost use Rattle.rules.specs.Counts.{twos, spends, ts};
ghost use Rattle.rules.specs.Lines.{line_of};
ghost use Rattle.gate.specs.Verdicts.{verdict_of};
ghost use Rattle.gate.specs.Reading.{Reads};
ghost use Rattle.gate.specs.Writing.{placed, stamped, gate_of, Small};
ghost use Rattle.gate.specs.Tests.{first, told, all_told};
ghost use Rattle.gate.specs.Plain as Plain;

use rules::{
    CODE_CNOT, CODE_CZ, CODE_RZ, CODE_T, CODE_TDG, CODE_X, GATE_TERMS, GATE_WIDTH, MAX_BITS,
    MAX_COLUMNS, MAX_GATES, MAX_WIRES, STEP_WIDTH, TERM_WIDTH,
};

// The opaque codes at which a run of the table begins or ends.
const CODE_P: u32 = 14;

const CODE_RY: u32 = 16;

const CODE_SWAP: u32 = 17;

const CODE_CP: u32 = 20;

const CODE_CRZ: u32 = 23;

const CODE_CCX: u32 = 24;

const CODE_CSWAP: u32 = 26;

const CODE_MEASURE: u32 = 27;

// Which of a gate's fields a refusal names.
#[derive(Clone, Copy, Debug, PartialEq, Eq)]
pub enum Field {
    First,
    Second,
    Third,
}

// What is wrong with a list, each with its number in document 01's table.
#[derive(Clone, Copy, Debug, PartialEq, Eq)]
pub enum Fault {
    // 1: no whole number of gates.
    Length,
    // 2: too many gates.
    Gates,
    // 3: too many wires or bits.
    Limits,
    // 4: too little output room.
    OutRoom,
    // 5: too little work room.
    WorkRooms,
    // 6: no such code.
    Code,
    // 7: a field that isn't used is not 0.
    Unused,
    // 8: a wire out of range.
    Range(Field),
    // 9: a wire twice.
    Twice,
    // 14: a classical bit out of range.
    Bit,
    // 15: beyond the plain engine's limits.
    PlainLimits,
    // 16: a gate outside the fragment.
    Opaque,
    // 17: too many wires to compare.
    CompareLimits,
    // 18: a negative line.
    Line,
}

impl Fault {
    ghost use Rattle.gate.specs.Faults.{tells};

    // Document 01's number.
    pub fn number(self) -> u8
        ensures { result ≡ (tells self).number }
    {
        match self {
            Fault::Length => 1,
            Fault::Gates => 2,
            Fault::Limits => 3,
            Fault::OutRoom => 4,
            Fault::WorkRooms => 5,
            Fault::Code => 6,
            Fault::Unused => 7,
            Fault::Range(_) => 8,
            Fault::Twice => 9,
            Fault::Bit => 14,
            Fault::PlainLimits => 15,
            Fault::Opaque => 16,
            Fault::CompareLimits => 17,
            Fault::Line => 18,
        }
    }

    // The field that it names: 1 first, 2 second, 3 third; 0 where it names none.
    pub fn field(self) -> u8
        ensures { result ≡ (tells self).field }
    {
        match self {
            Fault::Range(Field::First) => 1,
            Fault::Range(Field::Second) | Fault::Bit => 2,
            Fault::Range(Field::Third) => 3,
            _ => 0,
        }
    }
}

// A fault and where it stands: at a gate's index, or at 0 where it is the whole list's.
#[derive(Clone, Copy, Debug, PartialEq, Eq)]
pub struct Refusal {
    pub fault: Fault,
    pub place: usize,
}

// A gate in unsigned numbers, its turn from 0 to 7. It has no line: what is made of gates has none of its own.
// Stays: the code is document 01's number, which lists carry and tests compare in ranges without a branch.
#[derive(Clone, Copy, Debug, PartialEq, Eq)]
pub struct Gate {
    pub code: u32,
    pub first: u32,
    pub second: u32,
    pub third: u32,
    pub turn: u8,
}

impl Gate {
    // A gate on one wire, without a turn.
    pub fn one(code: u32, q: u32) -> Gate
        ensures { gate_of result ≡ gate1 code q }
    {
        Gate::two(code, q, 0)
    }

    // A gate on two wires, without a turn.
    pub fn two(code: u32, p: u32, q: u32) -> Gate
        ensures { gate_of result ≡ gate2 code p q }
    {
        Gate {
            code,
            first: p,
            second: q,
            third: 0,
            turn: 0,
        }
    }
}

// A gate's numbers as a list has them, a negative code as 0.
#[derive(Clone, Copy)]
struct Fields {
    code: u32,
    first: i32,
    second: i32,
    third: i32,
    turn: i32,
    line: i32,
}

// ---- signed numbers, as document 01 looks at them

// The number, and 0 for a negative one.
pub fn nat(x: i32) -> u32
    ensures { result ≡ Numbers.nat_of x }
{
    x.max(0).cast_unsigned()
}

// Whether it is one of 0 to n - 1.
// Stays: a comparison, since `usize::try_from` makes the check of a list a sixth dearer.
pub fn inside(x: i32, n: usize) -> bool
    ensures { result ≡ Numbers.inside x n }
{
    !x.is_negative() && (x as usize) < n
}

pub fn same(x: i32, y: i32) -> bool
    ensures { result ≡ Numbers.same x y }
{
    x == y
}

// Whether it is odd: the remainder of a negative one is -1.
pub fn odd(x: i32) -> bool
    ensures { result ≡ Numbers.odd x }
{
    x % 2 != 0
}

pub fn negative(x: i32) -> bool
    ensures { result ≡ Numbers.negative x }
{
    x < 0
}

// ---- which fields a code uses: tests without a branch

// Whether the code is one of a to e.
fn from(a: u32, e: u32, c: u32) -> bool
    ensures { result ≡ Codes.from a e c }
{
    (a <= c) & (c <= e)
}

// `second` is a wire.
fn second(c: u32) -> bool
    ensures { result ≡ Codes.second c }
{
    from(CODE_CNOT, CODE_CZ, c) | from(CODE_SWAP, CODE_CSWAP, c)
}

// `second` is a classical bit.
fn bitted(c: u32) -> bool
    ensures { result ≡ Codes.bitted c }
{
    c == CODE_MEASURE
}

// `third` is a wire.
fn third(c: u32) -> bool
    ensures { result ≡ Codes.third c }
{
    from(CODE_CCX, CODE_CSWAP, c)
}

// `turn` is used.
fn turned(c: u32) -> bool
    ensures { result ≡ Codes.turned c }
{
    (c == CODE_RZ) | (from(CODE_P, CODE_RY, c) | from(CODE_CP, CODE_CRZ, c))
}

// ---- the check of one gate

// What is given for the first test that fails.
pub fn first_of<T: Copy>(tests: &[(bool, T)]) -> Option<T>
    ensures { result ≡ first tests.now }
{
    for &(fails, gives) in tests {
        if fails {
            return Some(gives);
        }
    }
    None
}

impl Fields {
    ghost use Rattle.gate.specs.Fields.{fields_at, fault_of};

    // The numbers of the gate at a place.
    fn at(list: &[i32], i: usize) -> Fields
        requires { width * i + width ≤ length list.now }
        ensures value { result ≡ fields_at list.now i }
        ensures small { result.code < 2 ^ 31 }
    {
        let at = GATE_WIDTH * i;
        Fields {
            code: nat(list[at]),
            first: list[at + 1],
            second: list[at + 2],
            third: list[at + 3],
            turn: list[at + 4],
            line: list[at + 5],
        }
    }

    // Not 7: the fields that the code does not use are 0.
    fn unused(self) -> bool
        ensures { result ≡ Refusals.unused self.code self.second self.third self.turn }
    {
        let c = self.code;
        (second(c) | (bitted(c) | (self.second == 0)))
            & ((third(c) | (self.third == 0)) & (turned(c) | (self.turn == 0)))
    }

    // Not 9: no wire stands twice.
    fn apart(self) -> bool
        ensures { result ≡ Refusals.apart self.code self.first self.second self.third }
    {
        let c = self.code;
        !(second(c) & (self.first == self.second))
            & !(third(c) & ((self.first == self.third) | (self.second == self.third)))
    }

    // A gate on one wire, with a turn only where the code is rz.
    fn single(self) -> bool
        ensures { result ≡ Plain.single self.code self.second self.turn }
    {
        from(CODE_X, CODE_RZ, self.code)
            & ((self.second == 0) & ((self.code == CODE_RZ) | (self.turn == 0)))
    }

    // A gate on two wires, cnot or cz.
    fn paired(self, wires: usize) -> bool
        ensures { result ≡ Plain.paired self.code wires self.first self.second self.turn }
    {
        from(CODE_CNOT, CODE_CZ, self.code)
            & (inside(self.second, wires) & ((self.first != self.second) & (self.turn == 0)))
    }

    // Enough for no fault, and most gates of a list pass it.
    fn plain(self, wires: usize) -> bool
        ensures { result ≡ Plain.plain self.code wires self.first self.second self.third self.turn self.line }
    {
        (self.single() | self.paired(wires))
            & (inside(self.first, wires) & ((self.third == 0) & !negative(self.line)))
    }

    // The first that is wrong: 6, 7, the fields from left to right, 9, 18.
    fn fault(self, wires: usize, bits: usize) -> Option<Fault>
        ensures { told result ≡ fault_of self wires bits }
    {
        let c = self.code;
        let first_off = !inside(self.first, wires);
        let second_off = second(c) & !inside(self.second, wires);
        let bit_off = bitted(c) & !inside(self.second, bits);
        let third_off = third(c) & !inside(self.third, wires);
        let tests = [
            (!from(CODE_X, CODE_MEASURE, c), Fault::Code),
            (!self.unused(), Fault::Unused),
            (first_off, Fault::Range(Field::First)),
            (second_off, Fault::Range(Field::Second)),
            (bit_off, Fault::Bit),
            (third_off, Fault::Range(Field::Third)),
            (!self.apart(), Fault::Twice),
            (negative(self.line), Fault::Line),
        ];
        first_of(&tests)
    }
}

// What is wrong with the gate at a place, test by test. Not expanded where it is called: the loop of the check has the quick test alone.
#[inline(never)]
fn failed_at(list: &[i32], wires: usize, bits: usize, i: usize) -> Option<Fault>
    requires { width * i + width ≤ length list.now }
    ensures { told result ≡ Refusals.fault_at list.now wires bits i }
{
    Fields::at(list, i).fault(wires, bits)
}

// What is wrong with the gate at a place. The tests are made only of a gate that is not plain.
#[inline(always)]
pub fn fault_at(list: &[i32], wires: usize, bits: usize, i: usize) -> Option<Fault>
    requires { width * i + width ≤ length list.now }
    ensures { told result ≡ Refusals.fault_at list.now wires bits i }
{
    if Fields::at(list, i).plain(wires) {
        return None;
    }
    failed_at(list, wires, bits, i)
}

// ---- the check of a list

// The tests of a list as a whole: the first that fails refuses it, at the place 0.
pub fn check_whole(tests: &[(bool, Fault)]) -> Result<(), Refusal>
    ensures { verdict_of result ≡ Refusals.ruled (Refusals.first_number (all_told tests.now) Refusals.none) 0 Refusals.accepted }
{
    match first_of(tests) {
        Some(fault) => Err(Refusal { fault, place: 0 }),
        None => Ok(()),
    }
}

// The first n gates, in list order.
pub fn check_gates(list: &[i32], wires: usize, bits: usize, n: usize) -> Result<(), Refusal>
    requires { width * n ≤ length list.now }
    ensures { verdict_of result ≡ Refusals.faults_from list.now wires bits n 0 }
{
    for i in 0..n {
        if let Some(fault) = fault_at(list, wires, bits, i) {
            return Err(Refusal { fault, place: i });
        }
    }
    Ok(())
}

// The list against the limits and the rooms, which are given by how many numbers they hold, then its gates.
// Stays: wires and bits are two numbers, as callers hand them in and each definition takes them; a struct would be taken apart in every clause.
pub fn check_list(
    list: &[i32],
    wires: usize,
    bits: usize,
    out: usize,
    terms: usize,
    steps: usize,
) -> Result<(), Refusal>
    ensures { verdict_of result ≡ Refusals.verdict list.now wires bits out terms steps }
{
    let n = list.len();
    let g = n / GATE_WIDTH;
    let tests = [
        (n % GATE_WIDTH != 0, Fault::Length),
        (MAX_GATES < g, Fault::Gates),
        ((MAX_WIRES < wires) | (MAX_BITS < bits), Fault::Limits),
        (out < n, Fault::OutRoom),
        (
            (terms / TERM_WIDTH < GATE_TERMS * g) | (steps / STEP_WIDTH < g + MAX_COLUMNS),
            Fault::WorkRooms,
        ),
    ];
    check_whole(&tests)?;
    check_gates(list, wires, bits, g)
}

// ---- a gate read and written: the passes see no signed numbers

pub fn read(list: &[i32], i: usize) -> Gate
    requires { width * i + width ≤ length list.now }
    ensures { Reads (Numbers.gate_at list.now i) result }
{
    let fields = Fields::at(list, i);
    Gate {
        code: fields.code,
        first: nat(fields.first),
        second: nat(fields.second),
        third: nat(fields.third),
        turn: turn::reduce(fields.turn),
    }
}

pub fn write(out: &mut [i32], i: usize, g: Gate)
    requires width_in_bounds { width * i + width ≤ length out.old }
    requires small { Small g }
    ensures { out.new ≡ placed out.old i (gate_of g) }
{
    let at = GATE_WIDTH * i;
    let row = &mut out[at..at + GATE_WIDTH];
    // Stays: six stores, since `copy_from_slice` from an array of the six takes several times as long.
    row[0] = g.code as i32;
    row[1] = g.first as i32;
    row[2] = g.second as i32;
    row[3] = g.third as i32;
    row[4] = g.turn as i32;
    row[5] = 0;
}

// ---- lines

// The line of the list's first gate, and 0 where there is none.
pub fn line(list: &[i32]) -> u32
    ensures { (result ≡ line_of (Numbers.gates_of list.now)) × (result < 2 ^ 31) }
{
    match list.get(GATE_WIDTH - 1) {
        Some(&line) => nat(line),
        None => 0,
    }
}

// The first n gates get that line.
pub fn stamp(out: &mut [i32], n: usize, line: u32)
    requires n_in_bounds { width * n ≤ length out.old }
    requires line_bound { line < 2 ^ 31 }
    ensures { out.new ≡ stamped line n 0 out.old }
{
    let l = line as i32;
    // Stays: `chunks_exact_mut` lends the gates, and tells a proof nothing of what is written to them.
    for i in 0..n {
        out[GATE_WIDTH * i + 5] = l;
    }
}

// ---- counts: the sum moves by a test, so that the loops have no branch on data
// Stays: two loops, since `filter` and `count` promise no loop without a branch, and a contract of one loop over any test would be longer than both.

// CNOT and CZ.
pub fn count_two(list: &[i32]) -> usize
    ensures { result ≡ twos (Numbers.gates_of list.now) }
{
    let mut sum = 0;
    for i in 0..list.len() / GATE_WIDTH {
        let c = nat(list[GATE_WIDTH * i]);
        sum += usize::from((c == CODE_CNOT) | (c == CODE_CZ));
    }
    sum
}

// Whether the machine spends a T on the gate: t, tdg, and rz or p with an odd turn.
fn spent(c: u32, t: i32) -> bool
    ensures { result ≡ spends c t }
{
    ((c == CODE_T) | (c == CODE_TDG)) | (((c == CODE_RZ) | (c == CODE_P)) & odd(t))
}

// T, as the machine spends it.
pub fn count_t(list: &[i32]) -> usize
    ensures { result ≡ ts (Numbers.gates_of list.now) }
{
    let mut sum = 0;
    for i in 0..list.len() / GATE_WIDTH {
        let at = GATE_WIDTH * i;
        sum += usize::from(spent(nat(list[at]), list[at + 4]));
    }
    sum
}
