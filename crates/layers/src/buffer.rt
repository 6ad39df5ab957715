// A write buffer over a flash whose page is a batch: it takes runs of whole words, holds the batch that they begin, and
// passes it down once a run reaches its end. With it a flash with large pages is one with pages of four bytes.
ghost use Rattle.std.specs.Prelude.{◌≡◌, ◌%◌, ◌<◌, ◌≤◌, take, length};
ghost use Rattle.layers.specs.Buffered.{Holding, Holding-prop};

use flash::interface::Flash;
use flash::place::Place;

// Nothing is held, or a batch that begins at a place. These are the two states of a buffer in docs/FLASH.md, section 8, by
// their names, which an `Option` would not have.
#[derive(Clone, Copy)]
pub enum State {
    Empty,
    Filling(Place),
}

// The held batch is the first `batch` bytes of `held`: memory is fixed, and the batch is known only at run time. While
// nothing is held they are all 0xFF.
#[derive(Drop)]
pub struct WriteBuffer<F: Flash> {
    pub(crate) below: F,
    pub(crate) batch: usize,
    pub(crate) state: State,
    pub(crate) held: [u8; 512],
    ghost some: { 0 < batch },
    ghost small: { batch ≤ 512 },
    ghost words: { batch % 4 ≡ 0 },
    ghost pages: { (F.meaning below).page ≡ batch },
    ghost batches: { (F.meaning below).batch ≡ batch },
    ghost full: { length held ≡ 512 },
    ghost holding: { Holding (F.meaning below) state (take batch held) } by { Holding-prop (F.meaning below) state (take batch held) },
}
