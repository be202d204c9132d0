// The plain engine over the first engine's pieces: each block's resynthesis is written to its end before it is compared.
#![tactic(auto)]

ghost use Rattle.std.specs.Prelude.{ℕ, ◌*◌};
ghost use Rattle.rules.specs.Limits.{width, plain_gates, plain_columns, whole_gates};
ghost use Rattle.rules.specs.Pass.{writer_of};
ghost use Rattle.plan.specs.View.{view};
ghost use Rattle.scan.specs.Scanning.{Scannable, Scans};
ghost use Rattle.plain_scan.specs.Sparing.{Sized};

use block::Block;
use flush::{Flushed, STACK};
use parity::Parity;
use plan::Plan;
use rules::{MAX_COLUMNS, PLAIN_COLUMNS};
use scan::{Engine, Tally};
use walk::Slot;

// Numbers for the additions of the widest closing map, which are more than a lent step room has, and for one addition more.
const ADDITIONS: usize = 2 * (PLAIN_COLUMNS * PLAIN_COLUMNS + 1);

// The plain engine's rooms, made once for all blocks.
#[derive(Drop)]
struct Rooms {
    nodes: [Slot; STACK],
    held: [Parity; MAX_COLUMNS],
    right: [Parity; MAX_COLUMNS],
    adds: [u32; ADDITIONS],
}

impl Rooms {
    fn new() -> Rooms {
        Rooms {
            nodes: [Slot::first(Parity::zero()); STACK],
            held: [Parity::zero(); MAX_COLUMNS],
            right: [Parity::zero(); MAX_COLUMNS],
            adds: [0; ADDITIONS],
        }
    }
}

// It takes short lists and narrow blocks, and writes each resynthesis in `whole`.
impl Engine for Rooms {
    ghost most_gates = { plain_gates };

    ghost most_wires = { plain_columns };

    ghost needs = { width * whole_gates };

    fn flush(
        &mut self,
        run: &[i32],
        place: &mut [i32],
        block: &Block,
        table: &mut [u32],
        room: &mut [u64],
        _steps: &mut [u32],
        whole: &mut [i32],
        plan: Plan,
    ) -> Flushed {
        let kept = plain_flush::flush(
            run,
            place,
            block,
            table,
            room,
            &mut self.nodes,
            &mut self.held,
            &mut self.right,
            &mut self.adds,
            whole,
            plan,
        );
        kept.flushed
    }
}

// The whole list, piece by piece. What is left in `room`, in `steps`, in `whole` and behind the result is the caller's to clear.
pub fn scan(
    list: &[i32],
    table: &mut [u32],
    out: &mut [i32],
    room: &mut [u64],
    steps: &mut [u32],
    whole: &mut [i32],
    plan: Plan,
) -> Tally
    requires scannable { Scannable (view plan) list.now out.old table.old room.old steps.old }
    requires sized { Sized (view plan) list.now whole.old }
    ensures { Scans (writer_of (view plan)) (view plan) list.now out.new table.new result }
{
    let mut rooms = Rooms::new();
    scan::scan_by(list, table, out, room, steps, whole, plan, &mut rooms)
}
