// The block under construction: gates fold into its rows, constants and terms.
// Stays: join table, term room and the heads of its index are parameters side by side, since the caller lends them, and a function that takes a struct of
// lent rooms has to promise of each that it is still the same.
#![tactic(auto)]

ghost use Rattle.std.specs.Prelude.{◌≡◌, true, ◌+◌, ◌^◌, ◌≤◌, ◌<◌, length, get_or};
ghost use Rattle.rules.specs.Limits.{max_columns};
ghost use Rattle.rules.specs.Bit.{bit};
ghost use Rattle.rules.specs.Fold as Fold;
ghost use Rattle.parity.specs.View.{val};
ghost use Rattle.terms.specs.Terms.{terms_of, Indexed};
ghost use Rattle.rows.specs.Rows.{rows_of};
ghost use Rattle.block.specs.View.{terms_at};
ghost use Rattle.block.specs.Steps.{Empty, Enterable, Enters, EnterableTwo, EntersTwo, Flips, Crosses, Turns, TurnsOne, cz_terms};

use join::{Local, Wire};
use parity::Parity;
use rules::MAX_COLUMNS;

// How many wires have joined; bit i of `flips` is the constant of local index i; how many terms there are; by local index, the name of its wire and the
// parity that it holds. Behind the wires that have joined, names and rows may be any.
#[derive(Clone, Copy)]
pub struct Block {
    pub wires: u32,
    pub flips: Parity,
    pub terms: usize,
    pub names: [u32; MAX_COLUMNS],
    pub rows: [Parity; MAX_COLUMNS],
}

impl Block {
    pub fn new() -> Block
        ensures { Empty result }
    {
        Block {
            wires: 0,
            flips: Parity::zero(),
            terms: 0,
            names: [0; MAX_COLUMNS],
            rows: [Parity::zero(); MAX_COLUMNS],
        }
    }

    // Names and rows stay, so that a small block costs no clearing of long arrays.
    pub fn clear(&mut self)
        ensures { Empty self.new }
    {
        self.wires = 0;
        self.flips = Parity::zero();
        self.terms = 0;
    }

    // ---- a wire joins

    // A wire that has not joined takes the next local index, and holds the parity of that index alone.
    fn fresh(&mut self, q: Wire, table: &mut [u32]) -> Local
        requires enterable { Enterable self.old q.0 table.old }
        requires q_value { get_or table.old q.0 0 ≡ 0 }
        ensures { Enters q.0 self.old self.new result.0 table.new }
    {
        let n = self.wires;
        join::enter(table, &mut self.names, n, q);
        self.rows[n as usize] = Parity::single(n);
        self.wires = n + 1;
        Local(n)
    }

    pub fn enter(&mut self, q: Wire, table: &mut [u32]) -> Local
        requires { Enterable self.old q.0 table.old }
        ensures { Enters q.0 self.old self.new result.0 table.new }
    {
        match join::place_of(&*table, q) {
            Some(at) => at,
            None => self.fresh(q, table),
        }
    }

    // The control joins before the target.
    pub fn enter_two(&mut self, c: Wire, t: Wire, table: &mut [u32]) -> (Local, Local)
        requires { EnterableTwo self.old c.0 t.0 table.old }
        ensures { EntersTwo c.0 t.0 self.old self.new result.0.0 result.1.0 table.new }
    {
        let control = self.enter(c, &mut *table);
        let target = self.enter(t, &mut *table);
        (control, target)
    }

    // ---- the folds, on local indices

    // x flips the constant.
    pub fn fold_x(&mut self, i: Local)
        requires { i.0 < max_columns }
        ensures flips { Flips self.old i.0 true self.new }
        ensures rows { self.new.rows ≡ self.old.rows }
    {
        self.flips = self.flips ^ Parity::single(i.0);
    }

    // cnot adds the control's parity and constant to the target's. Only the rows of the wires that have joined are lent, so that what lies behind is
    // known to be as it was.
    pub fn fold_cnot(&mut self, c: Local, t: Local)
        requires c_lt_wires { (c.0 < self.old.wires) × (t.0 < self.old.wires) }
        requires wires_le_max_columns { self.old.wires ≤ max_columns }
        ensures { Crosses self.old c.0 t.0 (bit (val self.old.flips) c.0) self.new }
    {
        let end = self.wires as usize;
        rows::add(&mut self.rows[..end], c.0 as usize, t.0 as usize);
        self.flips = self.flips ^ Parity::single(t.0).kept(self.flips.has(c.0));
    }

    // A turn on a parity, negated by its constant.
    fn fold(&mut self, p: Parity, flips: bool, k: u8, room: &mut [u64], heads: &mut [u32])
        requires terms_in_bounds { self.old.terms < length (terms_of room.old) }
        requires terms_bound { (self.old.terms < 2 ^ 32) × Indexed heads.old room.old self.old.terms }
        ensures { TurnsOne (Fold.add_term (val p) (Fold.signed flips k) (terms_at self.old room.old)) self.old self.new room.old room.new heads.new }
    {
        self.terms = terms::add_term(room, self.terms, p, flips, k, heads);
    }

    // A rotation folds its turn onto the parity that the wire holds.
    pub fn fold_turn(&mut self, i: Local, k: u8, room: &mut [u64], heads: &mut [u32])
        requires i_lt_max_columns { i.0 < max_columns }
        requires terms_in_bounds { self.old.terms < length (terms_of room.old) }
        requires terms_bound { (self.old.terms < 2 ^ 32) × Indexed heads.old room.old self.old.terms }
        ensures { Turns (Fold.add_term (get_or (rows_of self.old.rows) i.0 0) (Fold.signed (bit (val self.old.flips) i.0) k) (terms_at self.old room.old)) self.old self.new room.old room.new heads.new }
    {
        let p = self.rows[i.0 as usize];
        let flips = self.flips.has(i.0);
        self.fold(p, flips, k, room, heads);
    }

    // cz is three rotations: by 2 on each wire's parity, by 6 on their sum.
    pub fn fold_cz(&mut self, c: Local, t: Local, room: &mut [u64], heads: &mut [u32])
        requires c_lt_max_columns { (c.0 < max_columns) × (t.0 < max_columns) }
        requires terms_in_bounds { self.old.terms + 3 ≤ length (terms_of room.old) }
        requires terms_bound { (self.old.terms + 3 ≤ 2 ^ 32) × Indexed heads.old room.old self.old.terms }
        ensures { Turns (cz_terms (get_or (rows_of self.old.rows) c.0 0) (bit (val self.old.flips) c.0) (get_or (rows_of self.old.rows) t.0 0) (bit (val self.old.flips) t.0) (terms_at self.old room.old)) self.old self.new room.old room.new heads.new }
    {
        let x = self.rows[c.0 as usize];
        let y = self.rows[t.0 as usize];
        let xs = self.flips.has(c.0);
        let ys = self.flips.has(t.0);
        self.fold(x, xs, 2, &mut *room, &mut *heads);
        self.fold(y, ys, 2, &mut *room, &mut *heads);
        self.fold(x ^ y, xs != ys, 6, &mut *room, &mut *heads);
    }
}
