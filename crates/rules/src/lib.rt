// The crate that carries the definitions of document 01 and their theorems; of code, only the numbers that it fixes, each by name and once.
#![tactic(auto)]

ghost use Rattle.std.specs.Prelude.{◌≡◌};
ghost use Rattle.rules.specs.Limits as Limits;

// Numbers to a gate.
pub const GATE_WIDTH: usize = 6;

pub const MAX_GATES: usize = 65536;

pub const MAX_WIRES: usize = 4096;

pub const MAX_BITS: usize = 1024;

// Wires of one block.
pub const MAX_COLUMNS: usize = 128;

// Numbers to an entry of term room and of step room, and the term entries that a gate needs.
pub const TERM_WIDTH: usize = 3;

pub const STEP_WIDTH: usize = 2;

pub const GATE_TERMS: usize = 3;

// The plain engine: the gates that it takes, the wires of one block, and the gates of one resynthesis: 768 * 31 + 2 * 768 + 32 * 32 + 32.
pub const PLAIN_GATES: usize = 256;

pub const PLAIN_COLUMNS: usize = 32;

pub const WHOLE_GATES: usize = 26400;

// The fragment's codes.
// Stays: numbers and no enum, since a list's lines and C's callers carry them, and the tests compare them in ranges without a branch.
pub const CODE_X: u32 = 1;

pub const CODE_T: u32 = 2;

pub const CODE_TDG: u32 = 3;

pub const CODE_S: u32 = 4;

pub const CODE_SDG: u32 = 5;

pub const CODE_Z: u32 = 6;

pub const CODE_RZ: u32 = 7;

pub const CODE_CNOT: u32 = 8;

pub const CODE_CZ: u32 = 9;

// The limits in one value, so that one statement says that the code's are document 01's.
#[derive(Clone, Copy)]
pub struct Fixed {
    pub width: usize,
    pub gates: usize,
    pub wires: usize,
    pub bits: usize,
    pub columns: usize,
    pub termwidth: usize,
    pub stepwidth: usize,
    pub gateterms: usize,
    pub plaingates: usize,
    pub plaincolumns: usize,
    pub wholegates: usize,
}

pub fn limits() -> Fixed
    ensures { result ≡ record { width = Limits.width; gates = Limits.max_gates; wires = Limits.max_wires; bits = Limits.max_bits; columns = Limits.max_columns; termwidth = Limits.term_width; stepwidth = Limits.step_width; gateterms = Limits.gate_terms; plaingates = Limits.plain_gates; plaincolumns = Limits.plain_columns; wholegates = Limits.whole_gates } }
{
    Fixed {
        width: GATE_WIDTH,
        gates: MAX_GATES,
        wires: MAX_WIRES,
        bits: MAX_BITS,
        columns: MAX_COLUMNS,
        termwidth: TERM_WIDTH,
        stepwidth: STEP_WIDTH,
        gateterms: GATE_TERMS,
        plaingates: PLAIN_GATES,
        plaincolumns: PLAIN_COLUMNS,
        wholegates: WHOLE_GATES,
    }
}
