// Export: reads our list from standard input and prints a laboratory's text.
#![tactic(auto)]

use spelling::ANSWER_BYTES;
use std::io;

fn main(rt: HostRuntime) -> io::Result<()> {
    serving::serve(
        &mut rt.stdin(),
        &mut rt.stdout(),
        [0u8; ANSWER_BYTES],
        export::export,
    )
}
