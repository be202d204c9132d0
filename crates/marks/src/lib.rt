// Rooms filled with marks, none of them 0, and looked at afterwards.
#![tactic(auto)]

ghost use Rattle.std.specs.Prelude.{◌≡◌, ℕ, pos};
ghost use Rattle.marks.specs.Marks as Marks;

// A number of a room, with a mark for each place.
pub trait Marking: Copy + PartialEq {
    ghost mark: { ℕ → Self };

    ghost NONE: { Self };

    // What is no mark.
    const NONE: Self;

    fn mark(i: usize) -> Self
        ensures { result ≡ mark i };
}

impl Marking for i32 {
    ghost mark = { Marks.out_mark };

    ghost NONE = { pos 0 };

    const NONE: i32 = 0;

    fn mark(i: usize) -> i32 {
        !((i % 65536) as i32)
    }
}

impl Marking for u64 {
    ghost mark = { Marks.term_mark };

    ghost NONE = { 0 };

    const NONE: u64 = 0;

    fn mark(i: usize) -> u64 {
        u64::MAX - (i % 65536) as u64
    }
}

impl Marking for u32 {
    ghost mark = { Marks.step_mark };

    ghost NONE = { 0 };

    const NONE: u32 = 0;

    fn mark(i: usize) -> u32 {
        u32::MAX - (i % 65536) as u32
    }
}

// What is due at a place of a room: no mark below `to`, and its mark from there on.
fn due<T: Marking>(i: usize, to: usize) -> T
    ensures { result ≡ Marks.due T.mark T.NONE to i }
{
    if i < to { T::NONE } else { T::mark(i) }
}

pub fn mark<T: Marking>(room: &mut [T])
    ensures { Marks.Marked T.mark T.NONE room.new }
{
    for (i, place) in room.iter_mut().enumerate() {
        *place = T::mark(i);
    }
}

// Whether a room has what is due, from `from` on.
pub fn right<T: Marking>(room: &[T], from: usize, to: usize) -> bool
    ensures { result ≡ Marks.right T.eq T.mark T.NONE room.now from to }
{
    let mut right = true;
    for i in from..room.len() {
        right &= room[i] == due(i, to);
    }
    right
}

// The sum of 1, 2 and 4 for the rooms that are right.
pub fn rooms_right(out: bool, terms: bool, steps: bool) -> usize
    ensures { result ≡ Marks.sum_of out terms steps }
{
    usize::from(out) + 2 * usize::from(terms) + 4 * usize::from(steps)
}
