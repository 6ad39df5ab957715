// Calls of a flash as rows of a table, each printed with its answer.
use flash::interface::Flash;
use flash::place::Place;
use flash::refusal::Refusal;
use std::fmt;

// What is asked, with a block, an offset and a number of bytes where it wants them. The first number of a program says which
// bytes: byte i is i modulo 64 with the bits of that number set. With names for the fields each row of the tables would take
// five lines. They are data, as each is printed before it is made.
#[derive(Clone, Copy)]
pub(crate) enum Call {
    Read(usize, usize, usize),
    Program(u8, usize, usize, usize),
    Erase(usize),
    Mark(usize),
    Arm(usize, u8),
    Restart,
    // the first bytes of a block
    Look(usize),
}

impl fmt::Display for Call {
    fn fmt<W: fmt::Write>(&self, f: &mut fmt::Formatter<W>) -> fmt::Result {
        match self {
            Call::Read(block, offset, n) => write!(f, "read {block} {offset} {n}"),
            Call::Program(_, block, offset, n) => write!(f, "program {block} {offset} {n}"),
            Call::Erase(block) => write!(f, "erase {block}"),
            Call::Mark(block) => write!(f, "mark {block}"),
            Call::Arm(steps, fault) => write!(f, "arm {steps} {fault:02x}"),
            Call::Restart => write!(f, "restart"),
            Call::Look(block) => write!(f, "look {block}:"),
        }
    }
}

// What a call answers; of a mark its value too, else 0.
#[derive(Clone, Copy)]
pub(crate) struct Answer(pub(crate) Result<usize, Refusal>);

impl From<Result<(), Refusal>> for Answer {
    fn from(answer: Result<(), Refusal>) -> Answer {
        Answer(answer.map(|()| 0))
    }
}

impl fmt::Display for Answer {
    fn fmt<W: fmt::Write>(&self, f: &mut fmt::Formatter<W>) -> fmt::Result {
        match self.0 {
            Ok(value) => write!(f, "done, {value}"),
            Err(refusal) => write!(f, "refused {}", u8::from(refusal)),
        }
    }
}

// A flash that is tried, where what it is asked and answers is printed.
#[derive(Drop)]
pub(crate) struct Trial<'a, F> {
    pub(crate) rt: &'a HostRuntime,
    pub(crate) flash: F,
}

impl<F: Flash + Drop> Trial<'_, F> {
    // Reads into bytes 0xa5, and prints the sum of what the buffer then holds.
    fn read(&self, at: Place, n: usize) -> anyhow::Result<Answer> {
        let mut out = vec![in self.rt.alloc(); 0xa5; n]?;
        let answer = self.flash.read(at, &mut out);
        let sum = crc32::sum_of(&out);
        print!(self.rt; ", buffer {sum:08x}")?;
        Ok(answer.into())
    }

    // Programs n bytes.
    pub(crate) fn program(&mut self, bits: u8, at: Place, n: usize) -> anyhow::Result<Answer> {
        let bytes: Vec<u8> = (0..n)
            .map(|i| (i % 64) as u8 | bits)
            .collect(self.rt.alloc())?;
        Ok(self.flash.program(at, &bytes).into())
    }

    // Prints the first bytes of a block.
    pub(crate) fn look(&self, block: usize) -> anyhow::Result<Answer> {
        let mut out = [0; 24];
        let answer = self.flash.read(Place { block, offset: 0 }, &mut out);
        for b in out {
            print!(self.rt; " {b:02x}")?;
        }
        Ok(answer.into())
    }

    // Makes a call; prints what is read.
    fn make(&mut self, call: Call) -> anyhow::Result<Answer> {
        Ok(match call {
            Call::Read(block, offset, n) => self.read(Place { block, offset }, n)?,
            Call::Program(bits, block, offset, n) => {
                self.program(bits, Place { block, offset }, n)?
            }
            Call::Erase(block) => self.flash.erase(block).into(),
            Call::Mark(block) => Answer(self.flash.mark(block)),
            Call::Arm(steps, fault) => self.flash.arm(steps, fault).into(),
            Call::Restart => {
                self.flash.restart();
                Answer(Ok(0))
            }
            Call::Look(block) => self.look(block)?,
        })
    }

    // Asks the calls of a table in order, and prints each with its answer.
    pub(crate) fn try_calls(&mut self, title: &str, calls: &[Call]) -> anyhow::Result<()> {
        println!(self.rt; "{title}")?;
        for call in calls {
            print!(self.rt; "{call}")?;
            let answer = self.make(*call)?;
            println!(self.rt; ": {answer}")?;
        }
        Ok(())
    }
}
