// The table of blocks: what changes it, and what it is asked.
use crate::answer::Answer;
use crate::command::{Change, Command, Question};
use index::block::{Block, State};
use index::contents::{file_length, run_at};
use index::entries::{count_names, entry_of, next_entry};
use index::name::{Name, NameTooLong};
use index::numbers::{highest_number, highest_version};
use index::record::{ContentRecord, EntryRecord};
use index::spent::{find_spent, is_missed};
use std::alloc::{AllocFailed, Global};
use std::num::TryFromIntError;

// A change that cannot be made.
#[derive(Clone, Copy)]
pub(crate) struct NotPossible;

impl<T: Drop> From<AllocFailed<T>> for NotPossible {
    fn from(_failed: AllocFailed<T>) -> NotPossible {
        NotPossible
    }
}

impl From<TryFromIntError> for NotPossible {
    fn from(_too_large: TryFromIntError) -> NotPossible {
        NotPossible
    }
}

impl From<NameTooLong> for NotPossible {
    fn from(_too_long: NameTooLong) -> NotPossible {
        NotPossible
    }
}

#[derive(Drop)]
pub(crate) struct Table {
    blocks: Vec<Block>,
}

// The state of a number, where an open block has this end.
fn state_of(number: u32, end: usize) -> Result<State, NotPossible> {
    match number {
        1 => Ok(State::Spent),
        2 => Ok(State::Bare),
        3 => Ok(State::Open { end }),
        4 => Ok(State::Full),
        _ => Err(NotPossible),
    }
}

// The number of a state. No `From`: the type is the index's, and the number is the script's.
fn number_of(state: State) -> usize {
    match state {
        State::Spent => 1,
        State::Bare => 2,
        State::Open { .. } => 3,
        State::Full => 4,
    }
}

fn with_bit(bits: usize, bit: bool) -> usize {
    bits.wrapping_mul(2) | usize::from(bit)
}

// A bit for each record that says whether it would be missed without its block: block by block, entries first.
fn missed(blocks: &[Block]) -> usize {
    let mut bits = 1;
    for (home, block) in blocks.iter().enumerate() {
        for entry in &block.entries {
            bits = with_bit(bits, is_missed(blocks, home, entry));
        }
        for content in &block.contents {
            bits = with_bit(bits, is_missed(blocks, home, content));
        }
    }
    bits
}

// A digit for the state of each block.
fn states(blocks: &[Block]) -> usize {
    blocks.iter().fold(0usize, |digits, block| {
        digits.wrapping_mul(10).wrapping_add(number_of(block.state))
    })
}

impl Table {
    pub(crate) fn new(heap: Global) -> Table {
        Table {
            blocks: Vec::new(heap),
        }
    }

    fn block(&mut self, home: usize) -> Result<&mut Block, NotPossible> {
        self.blocks.get_mut(home).ok_or(NotPossible)
    }

    fn add_block(&mut self) -> Result<(), NotPossible> {
        let heap = *self.blocks.allocator();
        self.blocks.push(Block {
            state: State::Bare,
            entries: Vec::new(heap),
            contents: Vec::new(heap),
        })?;
        Ok(())
    }

    // Makes a change, if it is possible.
    fn change(&mut self, change: Change<'_>) -> Result<(), NotPossible> {
        match change {
            Change::Block => self.add_block()?,
            Change::State { block, number, end } => {
                self.block(block)?.state = state_of(number, end)?;
            }
            Change::Entry {
                place,
                pino,
                version,
                ino,
                dtype,
                name,
            } => {
                self.block(place.block)?.entries.push(EntryRecord {
                    place,
                    length: name.len().saturating_add(40),
                    pino,
                    version,
                    ino,
                    dtype: u8::try_from(dtype)?,
                    name: Name::try_from(name.as_bytes())?,
                })?;
            }
            Change::Content(content) => {
                self.block(content.place.block)?.contents.push(content)?;
            }
            Change::Find => find_spent(&mut self.blocks),
        }
        Ok(())
    }

    // The answer to a question.
    fn ask(&self, question: Question<'_>) -> Answer {
        let blocks = &self.blocks;
        match question {
            Question::Of { pino, name } => entry_of(blocks, pino, name.as_bytes()).into(),
            Question::Next { pino, name } => next_entry(blocks, pino, name.as_bytes()).into(),
            Question::Run { ino, at, limit } => run_at(blocks, ino, at, limit).into(),
            Question::Names { pino } => Answer::Is(count_names(blocks, pino)),
            Question::Length { ino } => Answer::Is(file_length(blocks, ino) as usize),
            Question::Version { number } => Answer::Is(highest_version(blocks, number) as usize),
            Question::Number => Answer::Is(highest_number(blocks) as usize),
            Question::Missed => Answer::Is(missed(blocks)),
            Question::States => Answer::Is(states(blocks)),
        }
    }

    // What a line answers.
    pub(crate) fn answer(&mut self, command: Command<'_>) -> Answer {
        match command {
            Command::Change(change) => Answer::Changed(self.change(change)),
            Command::Question(question) => self.ask(question),
        }
    }
}
