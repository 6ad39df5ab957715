// What a line of the script answers.
use crate::table::NotPossible;
use flash::place::Place;
use index::record::EntryRecord;
use index::run::Run;
use std::fmt;
use trials::digest::Digest;

// A word, and what is printed behind it, as wide as it is printed. An answer is handed on from call to call, and each time
// copied: whole records, and also fields of several widths side by side, were seen to take more time than the question.
#[derive(Clone, Copy)]
pub(crate) enum Answer {
    NotUnderstood,
    Changed(Result<(), NotPossible>),
    Is(usize),
    // the entry of a name
    Found {
        place: Place,
        version: usize,
        ino: usize,
        dtype: usize,
    },
    NotFound,
    // the content that gives a byte, and where its run ends
    Hole {
        place: Place,
        end: usize,
    },
    Plain {
        place: Place,
        end: usize,
    },
    // no content gives the byte, up to an end
    NoContent {
        end: usize,
    },
}

impl From<Option<EntryRecord>> for Answer {
    fn from(found: Option<EntryRecord>) -> Answer {
        match found {
            Some(entry) => Answer::Found {
                place: entry.place,
                version: entry.version as usize,
                ino: entry.ino as usize,
                dtype: usize::from(entry.dtype),
            },
            None => Answer::NotFound,
        }
    }
}

impl From<Run> for Answer {
    fn from(run: Run) -> Answer {
        let end = run.end as usize;
        match run.content {
            Some(content) if content.hole => Answer::Hole {
                place: content.place,
                end,
            },
            Some(content) => Answer::Plain {
                place: content.place,
                end,
            },
            None => Answer::NoContent { end },
        }
    }
}

impl Answer {
    fn word(&self) -> &'static str {
        match self {
            Answer::NotUnderstood => "not understood",
            Answer::Changed(Ok(())) => "done",
            Answer::Changed(Err(NotPossible)) => "not possible",
            Answer::Is(_) => "is",
            Answer::Found { .. } => "found",
            Answer::Hole { .. } => "hole",
            Answer::Plain { .. } => "plain",
            Answer::NotFound | Answer::NoContent { .. } => "none",
        }
    }

    // The numbers behind the word; those that are not answered are 0.
    fn row(&self) -> [usize; 5] {
        match *self {
            Answer::Is(number) => [number, 0, 0, 0, 0],
            Answer::Found {
                place: Place { block, offset },
                version,
                ino,
                dtype,
            } => [block, offset, version, ino, dtype],
            Answer::Hole { place, end } | Answer::Plain { place, end } => {
                [place.block, place.offset, end, 0, 0]
            }
            Answer::NoContent { end } => [0, 0, end, 0, 0],
            Answer::NotUnderstood | Answer::Changed(_) | Answer::NotFound => [0; 5],
        }
    }

    // Takes the answer into a number for all of them. The row is gone through by reference: by value, each of its numbers would
    // be put into an `Option` first.
    pub(crate) fn taken_into(&self, all: usize) -> usize {
        self.row()
            .iter()
            .fold(all ^ self.word().len(), |all, n| all.with(*n))
    }
}

impl fmt::Display for Answer {
    fn fmt<W: fmt::Write>(&self, f: &mut fmt::Formatter<W>) -> fmt::Result {
        let word = self.word();
        let row = self.row();
        write!(f, "{word} {row:?}")
    }
}
