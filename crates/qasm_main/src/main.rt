// Shortens a laboratory's text: reads it from standard input and prints the shorter one.
#![tactic(auto)]

use spelling::ANSWER_BYTES;
use std::io;

fn main(rt: HostRuntime) -> io::Result<()> {
    serving::serve(
        &mut rt.stdin(),
        &mut rt.stdout(),
        [0u8; ANSWER_BYTES],
        shorten::shorten,
    )
}
