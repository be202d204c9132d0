// Circuit wires and a block's local indices, each a number type of its own. Only what stands here leads from one to the other.
// Stays: an entry of the join table is a number, the local index plus 1 or 0, since an Option's own tag would double the table.
#![tactic(auto)]

ghost use Rattle.std.specs.Prelude.{◌≡◌, not, ◌<◌, length, get_or, eqb};
ghost use Rattle.join.specs.Tables.{number_of, Joins, Joinable, Enters, Leaves};

// A wire of the circuit.
#[derive(Clone, Copy, PartialEq, Eq)]
pub struct Wire(pub u32);

// A joined wire's index within its block.
#[derive(Clone, Copy, PartialEq, Eq)]
pub struct Local(pub u32);

// The wire at a local index; `names` has the wires in the order in which they joined.
pub fn wire_of(names: &[u32], i: Local) -> Wire
    requires { i.0 < length names.now }
    ensures { result.0 ≡ get_or names.now i.0 0 }
{
    Wire(names[i.0 as usize])
}

// The local index of a wire, if it has joined.
pub fn place_of(table: &[u32], q: Wire) -> Option<Local>
    requires { q.0 < length table.now }
    ensures { number_of result ≡ get_or table.now q.0 0 }
{
    let entry = table[q.0 as usize];
    if entry == 0 {
        None
    } else {
        Some(Local(entry - 1))
    }
}

// Whether a wire has joined.
pub fn joined(table: &[u32], q: Wire) -> bool
    requires { q.0 < length table.now }
    ensures { result ≡ not (eqb (get_or table.now q.0 0) 0) }
{
    place_of(table, q).is_some()
}

// The wire q takes the local index n.
pub fn enter(table: &mut [u32], names: &mut [u32], n: u32, q: Wire)
    requires { Joinable table.old names.old n q.0 }
    ensures { Enters table.old names.old n q.0 table.new names.new }
{
    table[q.0 as usize] = n + 1;
    names[n as usize] = q.0;
}

// The first n names leave: only their entries are written, so that the cost is the block's wires.
pub fn leave(table: &mut [u32], names: &[u32], n: u32)
    requires { Joins table.old names.now n }
    ensures { Leaves table.new names.now }
{
    for &q in &names[..n as usize] {
        table[q as usize] = 0;
    }
}
