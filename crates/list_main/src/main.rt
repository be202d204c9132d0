// The list program: reads a text from standard input and prints its answer.
#![tactic(auto)]

use spelling::ANSWER_BYTES;
use std::io;

fn main(rt: HostRuntime) -> io::Result<()> {
    serving::serve(
        &mut rt.stdin(),
        &mut rt.stdout(),
        [0u8; ANSWER_BYTES],
        list::list,
    )
}
