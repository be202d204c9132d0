// Alike: reads two lists from standard input, one behind the other, and prints whether they act alike, or the refusal.
#![tactic(auto)]

use spelling::ANSWER_BYTES;
use std::io;

fn main(rt: HostRuntime) -> io::Result<()> {
    serving::serve(
        &mut rt.stdin(),
        &mut rt.stdout(),
        [0u8; ANSWER_BYTES],
        pair::pair,
    )
}
