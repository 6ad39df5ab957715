// The lines of a script, and the bytes that they speak of.
use flash::place::Place;

// A flash to put together: a chip in so many bytes of memory, with a write buffer over it or without.
#[derive(Clone, Copy)]
pub(crate) struct Card {
    pub(crate) buffered: bool,
    pub(crate) bytes: usize,
    pub(crate) bits: usize,
    pub(crate) page: usize,
}

// What a line asks for, as data: lines are read at run time.
#[derive(Clone, Copy)]
pub(crate) enum Command {
    Card(Card),
    Shape,
    Mark { block: usize },
    Read { at: Place, n: usize },
    Program { at: Place, n: usize, bits: u8 },
    Erase { block: usize },
    Arm { steps: usize, fault: u8 },
    Restart,
    Look { block: usize },
}

// What a word asks for, with the numbers behind it.
fn command_of(verb: &str, numbers: &[usize]) -> Option<Command> {
    Some(match (verb, numbers) {
        ("chip" | "pile", &[bytes, bits, page]) => Command::Card(Card {
            buffered: verb == "pile",
            bytes,
            bits,
            page,
        }),
        ("shape", []) => Command::Shape,
        ("mark", &[block]) => Command::Mark { block },
        ("read", &[block, offset, n]) => Command::Read {
            at: Place { block, offset },
            n,
        },
        ("program", &[block, offset, n, bits]) => Command::Program {
            at: Place { block, offset },
            n,
            bits: u8::try_from(bits).ok()?,
        },
        ("erase", &[block]) => Command::Erase { block },
        ("arm", &[steps, fault]) => Command::Arm {
            steps,
            fault: u8::try_from(fault).ok()?,
        },
        ("restart", []) => Command::Restart,
        ("look", &[block]) => Command::Look { block },
        _ => return None,
    })
}

// What a line asks for, if it is understood: a word, and so many numbers behind it, at most four. `trials_index` reads its
// lines likewise, but for the numbers' width and a name behind them: the contract of a function for both would be longer than
// these lines.
pub(crate) fn parse(line: &str) -> Option<Command> {
    let mut words = line.split(' ');
    let verb = words.next()?;
    let mut numbers = [0; 4];
    let mut count = 0;
    for word in words {
        *numbers.get_mut(count)? = word.parse().ok()?;
        count += 1;
    }
    command_of(verb, numbers.get(..count)?)
}

// Fills memory, or a run to program, with bytes by a simple rule.
pub(crate) fn fill(out: &mut [u8], bits: u8) {
    for (i, b) in out.iter_mut().enumerate() {
        *b = (i % 251) as u8 | bits;
    }
}
