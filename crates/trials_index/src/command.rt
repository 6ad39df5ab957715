// The lines of a script.
use flash::place::Place;
use index::record::ContentRecord;

// What a line asks for, as data: lines are read at run time.
#[derive(Clone, Copy)]
pub(crate) enum Command<'a> {
    Change(Change<'a>),
    Question(Question<'a>),
}

// What changes the table. The block of a place is the one that the record goes into.
#[derive(Clone, Copy)]
pub(crate) enum Change<'a> {
    Block,
    State {
        block: usize,
        number: u32,
        end: usize,
    },
    Entry {
        place: Place,
        pino: u32,
        version: u32,
        ino: u32,
        dtype: u32,
        name: &'a str,
    },
    Content(ContentRecord),
    Find,
}

// What is asked of the table.
#[derive(Clone, Copy)]
pub(crate) enum Question<'a> {
    Of { pino: u32, name: &'a str },
    Next { pino: u32, name: &'a str },
    Names { pino: u32 },
    Length { ino: u32 },
    Run { ino: u32, at: u32, limit: u32 },
    Version { number: u32 },
    Number,
    Missed,
    States,
}

fn place(block: u32, offset: u32) -> Place {
    Place {
        block: block as usize,
        offset: offset as usize,
    }
}

// What a word changes, with the numbers and the name behind it.
fn change_of<'a>(verb: &str, numbers: &[u32], name: Option<&'a str>) -> Option<Change<'a>> {
    Some(match (verb, numbers, name) {
        ("block", [], None) => Change::Block,
        ("state", &[block, number, end], None) => Change::State {
            block: block as usize,
            number,
            end: end as usize,
        },
        ("entry", &[block, offset, pino, version, ino, dtype], Some(name)) => Change::Entry {
            place: place(block, offset),
            pino,
            version,
            ino,
            dtype,
            name,
        },
        ("content", &[block, at, ino, version, mode, isize, offset, dsize, hole], None) => {
            Change::Content(ContentRecord {
                place: place(block, at),
                length: 68,
                ino,
                version,
                mode,
                isize,
                offset,
                dsize,
                hole: hole != 0,
            })
        }
        ("find", [], None) => Change::Find,
        _ => return None,
    })
}

// What a word asks, with the numbers and the name behind it.
fn question_of<'a>(verb: &str, numbers: &[u32], name: Option<&'a str>) -> Option<Question<'a>> {
    Some(match (verb, numbers, name) {
        ("of", &[pino], Some(name)) => Question::Of { pino, name },
        ("next", &[pino], Some(name)) => Question::Next { pino, name },
        ("names", &[pino], None) => Question::Names { pino },
        ("length", &[ino], None) => Question::Length { ino },
        ("run", &[ino, at, limit], None) => Question::Run { ino, at, limit },
        ("version", &[number], None) => Question::Version { number },
        ("number", [], None) => Question::Number,
        ("missed", [], None) => Question::Missed,
        ("states", [], None) => Question::States,
        _ => return None,
    })
}

// What a line asks for, if it is understood: behind its first word stand numbers of 32 bits, at most nine, and behind these, if
// the line speaks of one, a name, which is no such number. `trials_flash` reads its lines likewise, but for the numbers' width
// and the name: the contract of a function for both would be longer than these lines.
pub(crate) fn parse(line: &str) -> Option<Command<'_>> {
    let mut words = line.split(' ');
    let verb = words.next()?;
    let mut numbers = [0; 9];
    let mut count = 0;
    let mut name = None;
    for word in words {
        if name.is_some() {
            return None;
        }
        match word.parse() {
            Ok(number) => {
                *numbers.get_mut(count)? = number;
                count += 1;
            }
            Err(_) => name = Some(word),
        }
    }
    let numbers = numbers.get(..count)?;
    change_of(verb, numbers, name)
        .map(Command::Change)
        .or_else(|| question_of(verb, numbers, name).map(Command::Question))
}
