// What each program that takes a text does: reads it, and prints its answer. A refusal is seen by what is printed, not by an exit status.
#![tactic(auto)]

ghost use Rattle.std.specs.Prelude.{List, ℕ, ◌+◌, ◌≤◌, length, IfOk, OnErr};
ghost use Rattle.std.specs.Io.KnownBytes.{Consumes};
ghost use Rattle.spelling.specs.Sizes.{list_bytes};
ghost use Rattle.saying.specs.Answer.{Answer};
ghost use Rattle.serving.specs.Serving.{AnswersBy, Served};

use saying::Said;
use spelling::LIST_BYTES;
use std::convert::AsSlice;
use std::io;
use std::io::{Read, Write};

// The answer is printed from its room. One byte more than a text may have is read, so that a longer one shows; the rest of it is not.
pub fn serve<R: Read, W: Write, O: AsSlice<u8> + Drop, F: FnOnce(&[u8], &mut O) -> Said>(
    reader: &mut R,
    writer: &mut W,
    mut room: O,
    answer: F,
) -> io::Result<()>
    ghost paper: { List ℕ → Answer }
    requires callable { F.IsAlwaysCallable answer }
    requires answers { AnswersBy F.FnOnce answer O.items paper }
    ensures ok { IfOk result (λ _. Served paper (R.remaining reader.old) (R.remaining reader.new) (W.contents writer.old) (W.contents writer.new)) }
    ensures err { OnErr result ((text : List ℕ) × (length text ≤ list_bytes + 1) × Consumes (R.remaining reader.old) (R.remaining reader.new) text) }
{
    let mut text = [0u8; LIST_BYTES + 1];
    let n = streams::read_full(reader, &mut text)?;
    let said = answer(&text[..n], &mut room);
    writer.write_all(&room.as_slice()[..said.length])
}
