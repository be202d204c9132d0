// The entry point text to text: two lists read, one behind the other, and compared.
#![tactic(auto)]

ghost use Rattle.std.specs.Prelude.{◌≤◌, ◌<◌, ◌^◌, length};
ghost use Rattle.spelling.specs.Sizes.{list_gates, answer_bytes};
ghost use Rattle.spelling.specs.Reading.{list_at};
ghost use Rattle.saying.specs.Answer.{answered};
ghost use Rattle.saying.specs.Reasons.{place_of};
ghost use Rattle.saying.specs.Clauses.{Says};
ghost use Rattle.acting.specs.Answer.{verdict_of};
ghost use Rattle.alike.specs.Answering as Alike;
ghost use Rattle.pair.specs.Answer as Paper;
ghost use Rattle.pair.specs.Clauses.{refused_as, Pairs};

use acting::Verdict;
use alike::Which;
use rules::GATE_WIDTH;
use saying::{Reason, Said};
use spelling::{ANSWER_BYTES, LIST_BYTES, LIST_GATES};

// Which list is refused, if it is one of them, and why.
fn refuse(out: &mut [u8], which: Option<Which>, reason: Reason) -> Said
    requires room { answer_bytes ≤ length out.old }
    requires fits { place_of reason < 2 ^ 32 }
    ensures { Says (refused_as which reason) out.old result out.new }
{
    let list = match which {
        Some(w) => w.number() as u32,
        None => 0,
    };
    let [number, place, field] = reason.numbers();
    Said {
        length: printing::write_refusal(out, 0, &[list, number, place, field]),
        refused: true,
    }
}

// One line.
fn say(out: &mut [u8], line: &[u8]) -> Said
    requires { length line.now ≤ length out.old }
    ensures { Says (answered line.now) out.old result out.new }
{
    Said {
        length: text::write_word(out, 0, line),
        refused: false,
    }
}

// The same, or the first that differs.
fn tell(out: &mut [u8], v: Verdict) -> Said
    requires { answer_bytes ≤ length out.old }
    ensures { Says (answered (Paper.verdict_text (verdict_of v))) out.old result out.new }
{
    match v {
        Verdict::Same => say(out, b"same\n"),
        Verdict::Map => say(out, b"map\n"),
        Verdict::Flips => say(out, b"flips\n"),
        Verdict::Phase => say(out, b"phase\n"),
    }
}

// Two lists that were read.
fn compare(first: &[i32], second: &[i32], wires: u32, out: &mut [u8]) -> Said
    requires { answer_bytes ≤ length out.old }
    ensures { Says (Paper.told (Alike.answer first.now second.now wires)) out.old result out.new }
{
    match alike::alike(first, second, wires as usize) {
        Ok(v) => tell(out, v),
        Err(b) => refuse(out, Some(b.list), Reason::List(b.refusal)),
    }
}

// The second list, from a line on.
fn with_second(text: &[u8], line: usize, first: &[i32], wires: u32, out: &mut [u8]) -> Said
    requires early { line < 2 ^ 16 }
    requires answer_bytes_in_bounds { answer_bytes ≤ length out.old }
    ensures { Says (Paper.second_as wires first.now line (list_at list_gates line text.now)) out.old result out.new }
{
    let mut second = [0i32; GATE_WIDTH * LIST_GATES];
    match reading::read_list(text, line, LIST_GATES, &mut second) {
        Err(w) => refuse(out, Some(Which::Second), Reason::from(w)),
        Ok(list) => {
            if list.head.wires != wires {
                return refuse(out, Some(Which::Second), Reason::Malformed(line + 1));
            }
            if !list.rest.is_empty() {
                return refuse(out, None, Reason::Malformed(list.line));
            }
            compare(first, &second[..GATE_WIDTH * list.gates], wires, out)
        }
    }
}

// The answer goes into a room that always suffices.
fn answer(text: &[u8], out: &mut [u8]) -> Said
    requires { answer_bytes ≤ length out.old }
    ensures { Says (Paper.answer text.now) out.old result out.new }
{
    if LIST_BYTES < text.len() {
        return refuse(out, None, Reason::Long);
    }
    let mut first = [0i32; GATE_WIDTH * LIST_GATES];
    match reading::read_list(text, 1, LIST_GATES, &mut first) {
        Err(w) => refuse(out, Some(Which::First), Reason::from(w)),
        Ok(list) => {
            let gates = &first[..GATE_WIDTH * list.gates];
            with_second(list.rest, list.line, gates, list.head.wires, out)
        }
    }
}

// Every text gets an answer.
pub fn pair(text: &[u8], out: &mut [u8; ANSWER_BYTES]) -> Said
    ensures { Pairs text.now out.old result out.new }
{
    answer(text, out)
}
