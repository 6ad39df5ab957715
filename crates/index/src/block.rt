// The erase blocks of a store, each with its state and the records of the nodes that stand in it.
use crate::record::{ContentRecord, EntryRecord};

// Spent: nothing in it is missed, and it is erased before use. Bare: erased, with nothing laid since. Open: the next item goes to
// `end`. Full: nothing more is laid into it.
#[derive(Clone, Copy)]
pub enum State {
    Spent,
    Bare,
    Open { end: usize },
    Full,
}

#[derive(Drop)]
pub struct Block {
    pub state: State,
    pub entries: Vec<EntryRecord>,
    pub contents: Vec<ContentRecord>,
}

impl Block {
    ghost use Rattle.std.specs.Prelude.{◌≡◌};
    ghost use Rattle.index.specs.Missed.{is_spent};

    pub(crate) fn is_spent(&self) -> bool
        ensures { result ≡ is_spent self.now.state }
    {
        matches!(self.state, State::Spent)
    }
}
