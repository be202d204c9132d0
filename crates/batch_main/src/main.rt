// Runs `cnot_min_with` on many cases, from standard input to standard output, all numbers little-endian.
// A case: nine numbers of 64 bits (wires, classical bits, qubit cap, term cap, how many numbers the list, the output room, the term room and
// the step room have, and the sum of 1, 2 and 4 for those rooms that are looked at wrongly: as if one number more had to be 0), then the list,
// 32 bits a number. It ends where the input does, or at a list or a room longer than its own.
// An answer, 32 bits a number: the refusal's number or 0; the sum of 1, 2 and 4 for the output, term and step rooms that are as promised; then the
// place and the field of a refusal, or the eight counts and the new gates.
#![tactic(auto)]

ghost use Rattle.std.specs.Prelude.{IsTrue, ◌+◌, ◌-◌, ◌*◌, ◌≤◌, length, IfOk, IfSome};
ghost use Rattle.batch_main.specs.Cases.{most_gates, most_numbers, most_terms, most_steps, Small};

use cnot_min::Counts;
use flow::Flow;
use gate::Refusal;
use rules::{GATE_TERMS, GATE_WIDTH, MAX_COLUMNS, STEP_WIDTH, TERM_WIDTH};
use std::io::{Read, Write};
use std::{array, io};
use streams::Page;

// Some more than 8,192 gates, and the rooms that so many need. A list of 65,536 and its rooms would be more than the usual stack.
const MOST_GATES: usize = 10900;

const MOST_NUMBERS: usize = GATE_WIDTH * MOST_GATES;

const MOST_TERMS: usize = TERM_WIDTH * (GATE_TERMS * MOST_GATES);

const MOST_STEPS: usize = STEP_WIDTH * (MOST_GATES + MAX_COLUMNS);

// Bytes that wait to be read, at least a case's, and to be written.
const INPUT: usize = 262144;

const OUTPUT: usize = 65536;

const HEAD: usize = 72;

#[derive(Clone, Copy)]
struct Case {
    wires: usize,
    bits: usize,
    qcap: usize,
    tcap: usize,
    list: usize,
    out: usize,
    terms: usize,
    steps: usize,
    ask: usize,
}

impl Case {
    fn read(bytes: &[u8]) -> Case
        requires { 72 ≤ length bytes.now }
    {
        let numbers: [usize; 9] = array::from_fn(|i| flow::long(bytes, i));
        let [wires, bits, qcap, tcap, list, out, terms, steps, ask] = numbers;
        Case {
            wires,
            bits,
            qcap,
            tcap,
            list,
            out,
            terms,
            steps,
            ask,
        }
    }

    // Whether the program has room for it.
    fn fits(self) -> bool
        ensures { IsTrue result → Small self }
    {
        self.list <= MOST_NUMBERS
            && self.out <= MOST_NUMBERS
            && self.terms <= MOST_TERMS
            && self.steps <= MOST_STEPS
    }
}

// What a case leaves in its rooms, and which of them are looked at wrongly.
#[derive(Clone, Copy)]
struct Left<'a> {
    out: &'a [i32],
    terms: &'a [u64],
    steps: &'a [u32],
    ask: usize,
}

impl<'a> Left<'a> {
    // The sum of 1, 2 and 4 for the rooms that hold 0 up to a place each and their marks behind it, the output from `from` on.
    fn right(self, from: usize, out: usize, terms: usize, steps: usize) -> usize
        requires { (out ≤ most_numbers) × (terms ≤ most_terms) × (steps ≤ most_steps) }
    {
        marks::rooms_right(
            marks::right(self.out, from, out + self.ask % 2),
            marks::right(self.terms, 0, terms + self.ask / 2 % 2),
            marks::right(self.steps, 0, steps + self.ask / 4 % 2),
        )
    }
}

// ---- an answer

// A refusal, which leaves every room as it was.
fn tell_refused<W: Write>(page: &mut Page<W, OUTPUT>, r: Refusal, left: Left) -> io::Result<()> {
    let told = [
        usize::from(r.fault.number()),
        left.right(0, 0, 0, 0),
        r.place,
        usize::from(r.fault.field()),
    ];
    flow::put(page, &told)
}

// The counts and the new gates of a list of g gates, which leaves 0 behind them and in the part of the work rooms that it needs.
fn tell_done<W: Write>(
    page: &mut Page<W, OUTPUT>,
    c: Counts,
    g: usize,
    left: Left,
) -> io::Result<()>
    requires { g ≤ most_gates }
{
    let end = (GATE_WIDTH * c.gatesout.min(g)).min(left.out.len());
    let right = left.right(
        end,
        GATE_WIDTH * g,
        TERM_WIDTH * (GATE_TERMS * g),
        STEP_WIDTH * (g + MAX_COLUMNS),
    );
    let told = [
        0, right, c.gatesin, c.gatesout, c.twosin, c.twosout, c.tin, c.tout, c.blocks, c.replaced,
    ];
    flow::put(page, &told)?;
    flow::put(page, &left.out[..end])
}

// The answer to a case whose list is these bytes, in the first parts of the rooms.
fn answer<W: Write>(
    page: &mut Page<W, OUTPUT>,
    case: Case,
    bytes: &[u8],
    list: &mut [i32; MOST_NUMBERS],
    out: &mut [i32; MOST_NUMBERS],
    terms: &mut [u64; MOST_TERMS],
    steps: &mut [u32; MOST_STEPS],
) -> io::Result<()>
    requires { Small case × (4 * case.list ≤ length bytes.now) }
{
    let list = &mut list[..case.list];
    let out = &mut out[..case.out];
    let terms = &mut terms[..case.terms];
    let steps = &mut steps[..case.steps];
    flow::load(bytes, &mut *list);
    marks::mark(&mut *out);
    marks::mark(&mut *terms);
    marks::mark(&mut *steps);
    let answer = cnot_min::cnot_min_with(
        list,
        case.wires,
        case.bits,
        case.qcap,
        case.tcap,
        &mut *out,
        &mut *terms,
        &mut *steps,
    );
    let left = Left {
        out,
        terms,
        steps,
        ask: case.ask,
    };
    match answer {
        Ok(c) => tell_done(page, c, case.list / GATE_WIDTH, left),
        Err(r) => tell_refused(page, r, left),
    }
}

// ---- the cases, one behind the other

// The next case, once its list is there too, if there is one that the program has room for.
fn take<R: Read, W: Write>(
    input: &mut Flow<R, INPUT>,
    page: &mut Page<W, OUTPUT>,
) -> io::Result<Option<Case>>
    ensures { IfOk result (λ taken. IfSome taken (λ c. Small c × (72 + 4 * c.list ≤ input.new.end - input.new.at))) }
{
    if !input.fill(&mut *page, HEAD)? {
        return Ok(None);
    }
    let case = Case::read(input.waiting());
    if !case.fits() {
        return Ok(None);
    }
    let there = input.fill(page, HEAD + 4 * case.list)?;
    Ok(there.then_some(case))
}

fn main(rt: HostRuntime) -> io::Result<()> {
    let mut input = Flow::new(rt.stdin());
    let mut page = Page::new(rt.stdout());
    let mut list = [0i32; MOST_NUMBERS];
    let mut out = [0i32; MOST_NUMBERS];
    let mut terms = [0u64; MOST_TERMS];
    let mut steps = [0u32; MOST_STEPS];
    // A proved loop has to end: no run uses up so many rounds.
    for _ in 0..u64::MAX {
        let Some(case) = take(&mut input, &mut page)? else {
            break;
        };
        let whole = HEAD + 4 * case.list;
        answer(
            &mut page,
            case,
            &input.waiting()[HEAD..whole],
            &mut list,
            &mut out,
            &mut terms,
            &mut steps,
        )?;
        input.pass(whole);
    }
    page.flush()
}
