// What a line of the script answers.
use std::fmt;
use trials::met::Met;

#[derive(Clone, Copy)]
pub(crate) enum Answer {
    // how many bytes an encoder laid, and a number for all that it could have written to
    Laid { size: Option<usize>, digest: usize },
    // what a walk met, and a number for all fields of all items
    Walked { met: Met, digest: usize },
    Sum(u32),
}

impl Answer {
    // The answer as a row; what is not answered is 0.
    fn row(self) -> [usize; 4] {
        match self {
            Answer::Laid { size, digest } => [size.unwrap_or(9999), digest, 0, 0],
            Answer::Walked { met, digest } => {
                let offence = met.offence_number();
                [met.items, met.last, usize::from(offence), digest]
            }
            Answer::Sum(sum) => [sum as usize, 0, 0, 0],
        }
    }
}

impl fmt::Display for Answer {
    fn fmt<W: fmt::Write>(&self, f: &mut fmt::Formatter<W>) -> fmt::Result {
        let row = self.row();
        write!(f, "{row:?}")
    }
}
