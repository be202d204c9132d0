// Do two checked lists of fragment gates over the same wires act alike? No room is lent: rows and sums are local, and turns are summed for one
// wire with all others at a time.
#![tactic(auto)]

ghost use Rattle.std.specs.Prelude.{◌≡◌, [], ◌∷◌, ◌≤◌, ◌<◌, length};
ghost use Rattle.rules.specs.Bit.{◌⊕◌, xor};
ghost use Rattle.rules.specs.Fold.{signed};
ghost use Rattle.rules.specs.Limits.{max_columns};
ghost use Rattle.rules.specs.Meaning.{op};
ghost use Rattle.gate.specs.Writing.{gate_of};
ghost use Rattle.parity.specs.View.{val};
ghost use Rattle.rows.specs.Rows.{rows_of};
ghost use Rattle.acting.specs.Alike as Question;
ghost use Rattle.acting.specs.Answer.{verdict_of};
ghost use Rattle.acting.specs.Table as Table;
ghost use Rattle.lanes.specs.Lanes.{term, Notes};
ghost use Rattle.compare.specs.View.{table_at, ops_of, backed, Ready, Fine, Passes, wire_test};

use acting::Verdict;
use gate::Gate;
use lanes::Lanes;
use parity::Parity;
use rules::{CODE_CNOT, CODE_CZ, CODE_X, GATE_WIDTH, MAX_COLUMNS};

// x and cnot change the rows and the constants; what the constants are then.
// Stays: beside the block's folds, which go by local indices; here each wire has its own row, and none joins.
fn act(g: Gate, flips: Parity, rows: &mut [Parity]) -> Parity
    requires { Ready g rows.old }
    ensures { table_at result rows.new ≡ Table.act (op (gate_of g)) (table_at flips rows.old) }
{
    match g.code {
        CODE_X => flips ^ Parity::single(g.first),
        CODE_CNOT => {
            rows::add(rows, g.first as usize, g.second as usize);
            flips ^ Parity::single(g.second).kept(flips.has(g.first))
        }
        _ => flips,
    }
}

// A turn on a parity, negated by the wire's constant, and once more for the second list.
fn rotate(s: &mut Lanes, p: Parity, flipped: bool, k: u8, i: u32, back: bool)
    requires { i < max_columns }
    ensures { Notes i (term (val p) (signed back (signed flipped k)) ∷ []) s.old s.new }
{
    let turned = turn::signed(back, turn::signed(flipped, k));
    s.note(p, turned, i);
}

// cz is three turns: by 2 on each wire's parity, by 6 on their sum.
fn weigh_cz(s: &mut Lanes, x: Parity, xs: bool, y: Parity, ys: bool, i: u32, back: bool)
    requires { i < max_columns }
    ensures { Notes i (backed back (Table.rotated 2 (val x) xs ∷ Table.rotated 2 (val y) ys ∷ Table.rotated 6 (xor (val x) (val y)) (xs ⊕ ys) ∷ [])) s.old s.new }
{
    rotate(&mut *s, x, xs, 2, i, back);
    rotate(&mut *s, y, ys, 2, i, back);
    rotate(&mut *s, x ^ y, xs != ys, 6, i, back);
}

// Rotations and cz add turns.
fn weigh(g: Gate, flips: Parity, rows: &[Parity], s: &mut Lanes, i: u32, back: bool)
    requires ready { Ready g rows.now }
    requires wire { i < max_columns }
    ensures { Notes i (backed back (Table.turns (op (gate_of g)) (table_at flips rows.now))) s.old s.new }
{
    match g.code {
        CODE_X | CODE_CNOT => {}
        CODE_CZ => {
            let x = rows[g.first as usize];
            let y = rows[g.second as usize];
            weigh_cz(s, x, flips.has(g.first), y, flips.has(g.second), i, back)
        }
        code => {
            let x = rows[g.first as usize];
            rotate(
                s,
                x,
                flips.has(g.first),
                absorb::turn_of(code, g.turn),
                i,
                back,
            )
        }
    }
}

fn step(g: Gate, flips: Parity, rows: &mut [Parity], s: &mut Lanes, i: u32, back: bool) -> Parity
    requires ready { Ready g rows.old }
    requires wire { i < max_columns }
    ensures { Passes (op (gate_of g) ∷ []) i back (table_at flips rows.old) s.old (table_at result rows.new) s.new }
{
    weigh(g, flips, &*rows, s, i, back);
    act(g, flips, rows)
}

// All gates of a list; what the constants are behind them.
fn run_from(
    list: &[i32],
    start: Parity,
    rows: &mut [Parity],
    s: &mut Lanes,
    i: u32,
    back: bool,
) -> Parity
    requires fine { Fine list.now (length (rows_of rows.old)) }
    requires few { length (rows_of rows.old) ≤ max_columns }
    requires wire { i < max_columns }
    ensures { Passes (ops_of list.now) i back (table_at start rows.old) s.old (table_at result rows.new) s.new }
{
    let n = list.len() / GATE_WIDTH;
    let mut flips = start;
    for k in 0..n {
        flips = step(gate::read(list, k), flips, &mut *rows, &mut *s, i, back);
    }
    flips
}

// The same from wires that each have their own value.
fn run(list: &[i32], rows: &mut [Parity], s: &mut Lanes, i: u32, back: bool) -> Parity
    requires fine { Fine list.now (length (rows_of rows.old)) }
    requires few { length (rows_of rows.old) ≤ max_columns }
    requires wire { i < max_columns }
    ensures { Passes (ops_of list.now) i back (Table.begin (length (rows_of rows.old))) s.old (table_at result rows.new) s.new }
{
    rows::set_units(&mut *rows);
    run_from(list, Parity::zero(), rows, s, i, back)
}

// One wire with all others: the turns of the first list and, negated, of the second.
fn wire(us: &[i32], vs: &[i32], rows: &mut [Parity], i: u32) -> bool
    requires fine { Fine us.now (length (rows_of rows.old)) }
    requires fine_2 { Fine vs.now (length (rows_of rows.old)) }
    requires few { length (rows_of rows.old) ≤ max_columns }
    requires wire { i < max_columns }
    ensures { result ≡ wire_test (length (rows_of rows.old)) us.now vs.now i }
{
    let n = rows.len();
    let mut sums = Lanes::none();
    run(us, &mut *rows, &mut sums, i, false);
    run(vs, &mut *rows, &mut sums, i, true);
    sums.settled(i, n as u32)
}

fn quiet(us: &[i32], vs: &[i32], rows: &mut [Parity]) -> bool
    requires fine { Fine us.now (length (rows_of rows.old)) }
    requires fine_2 { Fine vs.now (length (rows_of rows.old)) }
    requires few { length (rows_of rows.old) ≤ max_columns }
    ensures { result ≡ Table.quiet (length (rows_of rows.old)) (Table.apart (length (rows_of rows.old)) (ops_of us.now) (ops_of vs.now)) }
{
    let n = rows.len();
    for i in 0..n {
        if !wire(us, vs, &mut *rows, i as u32) {
            return false;
        }
    }
    true
}

// The same in rooms for the rows of both.
fn compare_in(us: &[i32], vs: &[i32], a: &mut [Parity], b: &mut [Parity]) -> Verdict
    requires fine { Fine us.now (length (rows_of a.old)) }
    requires fine_2 { Fine vs.now (length (rows_of a.old)) }
    requires few { length (rows_of a.old) ≤ max_columns }
    requires same { length b.old ≡ length a.old }
    ensures { verdict_of result ≡ Question.verdict (length (rows_of a.old)) (ops_of us.now) (ops_of vs.now) }
{
    let mut sums = Lanes::none();
    let f = run(us, &mut *a, &mut sums, 0, false);
    let g = run(vs, &mut *b, &mut sums, 0, false);
    if !rows::equal(&*a, &*b) {
        return Verdict::Map;
    }
    if f != g {
        return Verdict::Flips;
    }
    if quiet(us, vs, &mut *a) {
        Verdict::Same
    } else {
        Verdict::Phase
    }
}

// Two lists that are not refused, of fragment gates on at most 128 wires.
pub fn compare(us: &[i32], vs: &[i32], wires: usize) -> Verdict
    requires fine { Fine us.now wires }
    requires fine_2 { Fine vs.now wires }
    requires wires_le_max_columns { wires ≤ max_columns }
    ensures { verdict_of result ≡ Question.verdict wires (ops_of us.now) (ops_of vs.now) }
{
    let mut a = [Parity::zero(); MAX_COLUMNS];
    let mut b = [Parity::zero(); MAX_COLUMNS];
    compare_in(us, vs, &mut a[..wires], &mut b[..wires])
}
