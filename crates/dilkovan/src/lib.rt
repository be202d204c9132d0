// The static library: the entry points under names that a program in another language can call. A slice is a pointer and a count.
#![tactic(auto)]

ghost use Rattle.std.specs.Prelude.{cond, ◌≡◌, ◌^◌, ◌<◌};
ghost use Rattle.rules.specs.Pass as Paper;
ghost use Rattle.gate.specs.Verdicts.{refusal_of};
ghost use Rattle.cnot_min.specs.Minimizing.{told, counted};
ghost use Rattle.alike.specs.Answering as Alike;
ghost use Rattle.list.specs.Answer as List;
ghost use Rattle.list.specs.Clauses.{Lists};
ghost use Rattle.import.specs.Answer as Import;
ghost use Rattle.import.specs.Clauses.{Imports};
ghost use Rattle.export.specs.Answer as Export;
ghost use Rattle.export.specs.Clauses as Exported;
ghost use Rattle.shorten.specs.Answer as Shorten;
ghost use Rattle.shorten.specs.Clauses.{Shortens};
ghost use Rattle.trace.specs.Answer as Trace;
ghost use Rattle.trace.specs.Clauses.{Traces};
ghost use Rattle.pair.specs.Answer as Pair;
ghost use Rattle.pair.specs.Clauses as Paired;
ghost use Rattle.plain_list.specs.Answer as PlainList;
ghost use Rattle.plain_list.specs.Clauses.{Plains};
ghost use Rattle.dilkovan.specs.Doors.{coded, listed, stored, Exports, ExportsText, Placed};
ghost use Rattle.dilkovan.specs.Pairs.{coded_pair, Blamed, ExportsAlike};
ghost use Rattle.dilkovan.specs.Plain.{ExportsPlain};

use acting::Verdict;
use alike::Blame;
use cnot_min::Counts;
use gate::Refusal;
use saying::Said;
use spelling::ANSWER_BYTES;
use trace::TRACE_BYTES;

// The refusal's field * 2^48 + its number * 2^32 + its place.
// Stays: C takes one number.
fn code(r: Refusal) -> u64
    requires { r.place < 2 ^ 32 }
    ensures code { result ≡ coded (Paper.refusal (refusal_of r)) }
    ensures short { result < 2 ^ 56 }
{
    let field = u64::from(r.fault.field());
    let number = u64::from(r.fault.number());
    field * 281474976710656 + number * 4294967296 + r.place as u64
}

// The counts, in document 01's order.
fn store(c: Counts, room: &mut [u64; 8])
    ensures { room.new ≡ listed (counted c) }
{
    *room = [
        c.gatesin as u64,
        c.gatesout as u64,
        c.twosin as u64,
        c.twosout as u64,
        c.tin as u64,
        c.tout as u64,
        c.blocks as u64,
        c.replaced as u64,
    ];
}

// 0 where it is done, and the counts are written; else the refusal's code.
fn hand_counts(answer: Result<Counts, Refusal>, counts: &mut [u64; 8]) -> u64
    requires { Placed answer }
    ensures code { result ≡ coded (told answer) }
    ensures kept { counts.new ≡ stored (told answer) counts.old }
{
    match answer {
        Ok(c) => {
            store(c, counts);
            0
        }
        Err(r) => code(r),
    }
}

// `cnot_min::cnot_min_with`. The counts are written only when it is done.
#[unsafe(no_mangle)]
pub extern "C" fn dilkovan_cnot_min(
    list: &[i32],
    wires: usize,
    bits: usize,
    qubit_cap: usize,
    term_cap: usize,
    out: &mut [i32],
    terms: &mut [u64],
    steps: &mut [u32],
    counts: &mut [u64; 8],
) -> u64
    ensures { Exports list.now wires bits qubit_cap term_cap out.old terms.old steps.old counts.old result out.new terms.new steps.new counts.new }
{
    let a = cnot_min::cnot_min_with(list, wires, bits, qubit_cap, term_cap, out, terms, steps);
    hand_counts(a, counts)
}

// `plain::cnot_min_plain`, in the same way, with one room more.
#[unsafe(no_mangle)]
pub extern "C" fn dilkovan_plain(
    list: &[i32],
    wires: usize,
    bits: usize,
    qubit_cap: usize,
    term_cap: usize,
    out: &mut [i32],
    terms: &mut [u64],
    steps: &mut [u32],
    whole: &mut [i32],
    counts: &mut [u64; 8],
) -> u64
    ensures { ExportsPlain list.now wires bits qubit_cap term_cap out.old terms.old steps.old whole.old counts.old result out.new terms.new steps.new whole.new counts.new }
{
    let a = plain::cnot_min_plain(
        list, wires, bits, qubit_cap, term_cap, out, terms, steps, whole,
    );
    hand_counts(a, counts)
}

// 0 same, 1 linear map, 2 flips, 3 phase; else the refusal's list * 2^56 + its field * 2^48 + its number * 2^32 + its place.
fn blamed(answer: Result<Verdict, Blame>) -> u64
    requires { Blamed answer }
    ensures { result ≡ coded_pair (Alike.told answer) }
{
    match answer {
        Ok(v) => u64::from(v),
        Err(b) => {
            let list = u64::from(b.list.number());
            list * 72057594037927936 + code(b.refusal)
        }
    }
}

// `alike::alike`.
#[unsafe(no_mangle)]
pub extern "C" fn dilkovan_alike(first: &[i32], second: &[i32], wires: usize) -> u64
    ensures { ExportsAlike first.now second.now wires result }
{
    blamed(alike::alike(first, second, wires))
}

// What is said of a text: how many bytes were printed, and 1 for a refusal.
// Stays: C takes a number, and the length in a room.
fn hand(said: Said, length: &mut usize) -> u64
    ensures told { result ≡ cond said.refused 1 0 }
    ensures size { length.new ≡ said.length }
{
    *length = said.length;
    u64::from(said.refused)
}

// `list::list`: 0 an answer, 1 a refusal. Its bytes begin `out`, and `length` says how many they are.
#[unsafe(no_mangle)]
pub extern "C" fn dilkovan_list(
    text: &[u8],
    out: &mut [u8; ANSWER_BYTES],
    length: &mut usize,
) -> u64
    ensures { ExportsText List.answer Lists text.now out.old result out.new length.new }
{
    hand(list::list(text, out), length)
}

// `import::import`, in the same way.
#[unsafe(no_mangle)]
pub extern "C" fn dilkovan_import(
    text: &[u8],
    out: &mut [u8; ANSWER_BYTES],
    length: &mut usize,
) -> u64
    ensures { ExportsText Import.answer Imports text.now out.old result out.new length.new }
{
    hand(import::import(text, out), length)
}

// `export::export`.
#[unsafe(no_mangle)]
pub extern "C" fn dilkovan_export(
    text: &[u8],
    out: &mut [u8; ANSWER_BYTES],
    length: &mut usize,
) -> u64
    ensures { ExportsText Export.answer Exported.Exports text.now out.old result out.new length.new }
{
    hand(export::export(text, out), length)
}

// `shorten::shorten`.
#[unsafe(no_mangle)]
pub extern "C" fn dilkovan_qasm(
    text: &[u8],
    out: &mut [u8; ANSWER_BYTES],
    length: &mut usize,
) -> u64
    ensures { ExportsText Shorten.answer Shortens text.now out.old result out.new length.new }
{
    hand(shorten::shorten(text, out), length)
}

// `trace::trace`.
#[unsafe(no_mangle)]
pub extern "C" fn dilkovan_trace(
    text: &[u8],
    out: &mut [u8; TRACE_BYTES],
    length: &mut usize,
) -> u64
    ensures { ExportsText Trace.answer Traces text.now out.old result out.new length.new }
{
    hand(trace::trace(text, out), length)
}

// `pair::pair`.
#[unsafe(no_mangle)]
pub extern "C" fn dilkovan_pair(
    text: &[u8],
    out: &mut [u8; ANSWER_BYTES],
    length: &mut usize,
) -> u64
    ensures { ExportsText Pair.answer Paired.Pairs text.now out.old result out.new length.new }
{
    hand(pair::pair(text, out), length)
}

// `plain_list::plain_list`.
#[unsafe(no_mangle)]
pub extern "C" fn dilkovan_plain_list(
    text: &[u8],
    out: &mut [u8; ANSWER_BYTES],
    length: &mut usize,
) -> u64
    ensures { ExportsText PlainList.answer Plains text.now out.old result out.new length.new }
{
    hand(plain_list::plain_list(text, out), length)
}
