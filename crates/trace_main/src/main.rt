// Trace: reads a laboratory's text from standard input and prints where each gate of the shortened circuit comes from.
#![tactic(auto)]

use std::io;
use trace::TRACE_BYTES;

fn main(rt: HostRuntime) -> io::Result<()> {
    serving::serve(
        &mut rt.stdin(),
        &mut rt.stdout(),
        [0u8; TRACE_BYTES],
        trace::trace,
    )
}
