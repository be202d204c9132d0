// Where each gate of a shortened circuit comes from: a laboratory's text in; out, for each gate that the pass makes of it, a line with its statement and the
// line that it was copied from, or the lines of the block that was written again.
#![tactic(auto)]

ghost use Rattle.std.specs.Prelude.{◌≡◌, ◌+◌, ◌*◌, ◌/◌, ◌≤◌, ◌<◌, length};
ghost use Rattle.std.proofs.Common.{rules};
ghost use Rattle.rules.specs.Limits.{width};
ghost use Rattle.rules.specs.Numbers.{gates_of};
ghost use Rattle.rules.specs.Plan.{plan_of};
ghost use Rattle.rules.specs.Scan.{pieces_of};
ghost use Rattle.rules.specs.Pass.{writer_of};
ghost use Rattle.plan.specs.View.{view};
ghost use Rattle.text.specs.Clauses.{Prints};
ghost use Rattle.spelling.specs.Heads.{head_of};
ghost use Rattle.import.specs.Answer as Import;
ghost use Rattle.import.specs.Clauses.{right};
ghost use Rattle.scan.specs.Scanning.{gates_in};
ghost use Rattle.origin.specs.Origins.{origins, origins_text, last_line};
ghost use Rattle.origin.specs.Clauses.{origin_size};
ghost use Rattle.trace.specs.Answer as Paper;
ghost use Rattle.trace.specs.Clauses.{trace_bytes, Right, Single, Cuts, Traces};

use block::Block;
use fitting::CnotMin;
use origin::{ORIGIN_BYTES, Source};
use plan::Plan;
use rules::{GATE_TERMS, GATE_WIDTH, MAX_WIRES, TERM_WIDTH};
use saying::{Program, Reason, Said};
use scan::HEADS;
use spelling::{Head, LIST_GATES};

// Bytes of the room for an answer.
pub const TRACE_BYTES: usize = ORIGIN_BYTES * LIST_GATES;

// The place behind the piece that begins at gate `at`: the block that the scan folds there or, where none can begin, that gate.
fn piece_end(numbers: &[i32], at: usize, head: Head) -> usize
    requires { Right (head_of head) numbers.now × (at < gates_in numbers.now) }
    ensures { Cuts (plan_of head.qubits head.terms) numbers.now at result }
{
    let plan = plan::of_caps(head.qubits as usize, head.terms as usize);
    let mut block = Block::new();
    let mut table = [0u32; MAX_WIRES];
    let mut room = [0u64; TERM_WIDTH * (GATE_TERMS * LIST_GATES)];
    let mut heads = [0u32; HEADS];
    let end = scan::fold_run(
        numbers,
        at,
        &mut block,
        &mut table[..head.wires as usize],
        &mut room,
        plan,
        &mut heads,
    );
    if end == at { at + 1 } else { end }
}

// The line of the last gate.
fn last_line(numbers: &[i32]) -> u32
    ensures { result ≡ last_line (gates_of numbers.now) }
{
    let (rows, _) = numbers.as_chunks::<GATE_WIDTH>();
    match rows.last() {
        Some(row) => gate::nat(row[5]),
        None => 0,
    }
}

// The gates of one piece: as they were, or as they were written again.
fn write_piece(numbers: &[i32], head: Head, out: &mut [u8], at: usize) -> usize
    requires right { Right (head_of head) numbers.now × Single (plan_of head.qubits head.terms) (gates_of numbers.now) }
    requires width_in_bounds { at + origin_size * (length numbers.now / width) ≤ length out.old }
    ensures { Prints (origin_size * (length numbers.now / width)) (origins_text (origins (writer_of (plan_of head.qubits head.terms)) (pieces_of (plan_of head.qubits head.terms) (gates_of numbers.now)))) out.old at out.new result }
{
    let mut new = [0i32; GATE_WIDTH * LIST_GATES];
    match fitting::minimize::<CnotMin>(numbers, head, &mut new) {
        Ok(c) => {
            if 0 < c.replaced {
                let source = Source::Again {
                    first: gate::line(numbers),
                    last: last_line(numbers),
                };
                origin::write_origins(out, at, &new[..GATE_WIDTH * c.gatesout], source)
            } else {
                origin::write_origins(out, at, numbers, Source::Copied)
            }
        }
        Err(_) => at,
    }
}

// The program.
struct Pieces;

impl Program for Pieces {
    ghost by = { Import.answer_by };

    ghost right = { right };

    ghost next = { Paper.traced };

    ghost room = { trace_bytes };

    fn take(text: &[u8], numbers: &mut [i32]) -> Result<(Head, usize), Reason> {
        import::take(text, numbers)
    }

    // Piece by piece.
    fn say(numbers: &[i32], head: Head, out: &mut [u8]) -> Said {
        let n = numbers.len() / GATE_WIDTH;
        let mut next = 0;
        let mut at = 0;
        while at < n {
            let end = piece_end(numbers, at, head);
            next = write_piece(
                &numbers[GATE_WIDTH * at..GATE_WIDTH * end],
                head,
                &mut *out,
                next,
            );
            at = end;
        }
        Said {
            length: next,
            refused: false,
        }
    }

    ghost roomy = { Prim.search rules };
}

// Every text gets an answer.
pub fn trace(text: &[u8], out: &mut [u8; TRACE_BYTES]) -> Said
    ensures { Traces text.now out.old result out.new }
{
    saying::answer::<Pieces>(text, out)
}
