// The small decisions of a write buffer: where it fits, what it shows, and what it asks, refuses and forgets.
ghost use Rattle.std.specs.Prelude.{◌≡◌, ◌-◌, ◌%◌, ◌<◌, length};
ghost use Rattle.layers.specs.Batch.{suits, turn, begins, begun, kept, left};

use crate::buffer::State;
use flash::place::{Place, Shape};
use flash::refusal::Refusal;

// Whether a write buffer can lie on a flash of this shape.
pub(crate) fn fits(below: Shape) -> bool
    ensures { result ≡ suits below.page below.batch }
{
    below.page == below.batch && below.batch % 4 == 0 && below.batch <= 512 && below.batch > 0
}

// What a program at a place asks of a buffer in a state: where the batch begins that is passed down first, if one ends at or
// before the place; or it is refused, as another block has bytes held.
pub(crate) fn decide(state: State, at: Place, batch: usize) -> Result<Option<Place>, Refusal>
    ensures { result ≡ turn state at.block at.offset batch }
{
    match (state, at) {
        (State::Empty, _) => Ok(None),
        (State::Filling(start), at) if at.block != start.block => Err(Refusal::OtherHeld),
        (State::Filling(start), at)
            if start.offset <= at.offset && batch <= at.offset - start.offset => { Ok(Some(start)) }
        _ => Ok(None),
    }
}

// The state of a buffer whose batch at a place is filled so far.
pub(crate) fn begin(used: usize, at: Place, batch: usize) -> State
    requires { 0 < batch }
    ensures { result ≡ begun used at.block (at.offset - at.offset % batch) }
{
    if used == 0 {
        return State::Empty;
    }
    State::Filling(Place {
        offset: at.offset - at.offset % batch,
        ..at
    })
}

// Where the held batch of a block begins, if it has one.
pub(crate) fn begins(state: State, block: usize) -> Option<usize>
    ensures { result ≡ begins state block }
{
    match state {
        State::Filling(start) if start.block == block => Some(start.offset),
        _ => None,
    }
}

// The state after an erase of a block: what was held of it is gone, and all that was held if the power failed.
pub(crate) fn left(answer: Result<(), Refusal>, state: State, block: usize) -> State
    ensures { result ≡ left answer state block }
{
    match (answer, state) {
        (Ok(()), State::Filling(start)) if start.block != block => State::Filling(start),
        _ => State::Empty,
    }
}

// The array of held bytes in a state: an empty buffer has nothing left of them.
pub(crate) fn kept(state: State, held: [u8; 512]) -> [u8; 512]
    ensures value { result ≡ kept state held }
    ensures long { length held ≡ 512 → length result ≡ 512 }
{
    match state {
        State::Empty => [0xff; 512],
        State::Filling(_) => held,
    }
}
