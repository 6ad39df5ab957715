// What a line of the script answers.
use flash::place::Shape;
use flash::refusal::Refusal;
use std::fmt;
use trials::digest::Digest;

// What comes back from a call.
#[derive(Clone, Copy)]
pub(crate) enum Values {
    Nothing,
    Number(usize),
    // of a buffer or of memory
    Bytes { length: usize, sum: u32 },
    Shape(Shape),
    // of the eighths of a block: a number for what they hold, and a bit for each that can be read
    Eighths { all: usize, readable: usize },
}

#[derive(Clone, Copy)]
pub(crate) enum Answer {
    // the line asks for no call, or for no flash
    NotUnderstood,
    Done(Values),
    Refused(Refusal, Values),
}

impl Values {
    pub(crate) fn of_bytes(bytes: &[u8]) -> Values {
        Values::Bytes {
            length: bytes.len(),
            sum: crc32::sum_of(bytes),
        }
    }

    // The values as a row; those that a call does not answer are 0.
    fn row(self) -> [usize; 4] {
        match self {
            Values::Nothing => [0; 4],
            Values::Number(n) => [n, 0, 0, 0],
            Values::Bytes { length, sum } => [length, sum as usize, 0, 0],
            Values::Shape(shape) => [shape.blocks, shape.size, shape.page, shape.batch],
            Values::Eighths { all, readable } => [all, readable, 0, 0],
        }
    }
}

impl From<Result<Values, Refusal>> for Answer {
    fn from(answer: Result<Values, Refusal>) -> Answer {
        match answer {
            Ok(values) => Answer::Done(values),
            Err(refusal) => Answer::Refused(refusal, Values::Nothing),
        }
    }
}

impl From<Result<(), Refusal>> for Answer {
    fn from(answer: Result<(), Refusal>) -> Answer {
        answer.map(|()| Values::Nothing).into()
    }
}

impl Answer {
    // The number of the refusal, 0 where there is none, 255 where nothing was asked; and the values.
    fn numbers(&self) -> (u8, [usize; 4]) {
        match self {
            Answer::NotUnderstood => (255, [0; 4]),
            Answer::Done(values) => (0, values.row()),
            Answer::Refused(refusal, values) => (u8::from(*refusal), values.row()),
        }
    }

    // Takes the answer into a number for all of them. The row is gone through by reference: by value, each of its numbers would
    // be put into an `Option` first.
    pub(crate) fn taken_into(&self, all: usize) -> usize {
        let (code, row) = self.numbers();
        row.iter()
            .fold(all.with(usize::from(code)), |all, n| all.with(*n))
    }
}

impl fmt::Display for Answer {
    fn fmt<W: fmt::Write>(&self, f: &mut fmt::Formatter<W>) -> fmt::Result {
        let word = match self {
            Answer::NotUnderstood => "not understood",
            Answer::Done(_) => "done",
            Answer::Refused(..) => "refused",
        };
        let (code, row) = self.numbers();
        write!(f, "{word} {code} {row:?}")
    }
}
