// The calls of a write buffer, which make it a flash over any flash that it fits.
ghost use Rattle.std.specs.Prelude.{◌≡◌, ◌+◌, ◌^◌, ◌<◌, true, false, take, Some, None, Ok, IfOk, IfErr, MatchResult};
ghost use Rattle.flash.specs.Refused.{program_refusal};
ghost use Rattle.layers.specs.Batch.{suits, turn};
ghost use Rattle.layers.specs.WriteBuffer.{means};
ghost use Rattle.layers.specs.Sanity.{means-sane};

use crate::batch::{cover, raise};
use crate::buffer::{State, WriteBuffer};
use crate::causes::{begins, decide, fits, kept, left};
use crate::run::Run;
use flash::bytes::reach;
use flash::interface::Flash;
use flash::place::{Place, Shape};
use flash::refusal::Refusal;

impl<F: Flash> WriteBuffer<F> {
    // An empty buffer over a flash whose page is a batch, of whole words and at most 512 bytes; else the flash comes back. A
    // refusal and what comes back are a pair, as they are matched at once.
    pub fn new(below: F) -> Result<WriteBuffer<F>, (Refusal, F)>
        ensures { MatchResult result (λ w. (w.below ≡ below) × (w.state ≡ State.Empty) × (suits (F.meaning below).page (F.meaning below).batch ≡ true)) (λ e. (e.0 ≡ Refusal.Shape) × (e.1 ≡ below) × (suits (F.meaning below).page (F.meaning below).batch ≡ false)) }
    {
        let shape = below.shape();
        if !fits(shape) {
            return Err((Refusal::Shape, below));
        }
        Ok(WriteBuffer {
            below,
            batch: shape.batch,
            state: State::Empty,
            held: [0xff; 512],
        })
    }

    // Where the batch begins that a program of n bytes passes down first, if any; or why the program is refused. A chip tests its
    // bounds in the same order; a function for both, on a `Shape`, would have to say something of pages of 0 bytes.
    fn admit(&self, at: Place, n: usize) -> Result<Option<Place>, Refusal>
        ensures refused { IfErr result (λ e. program_refusal (means self.now) at.block at.offset n ≡ Some e) }
        ensures accepted { IfOk result (λ _. program_refusal (means self.now) at.block at.offset n ≡ None) }
        ensures first { IfOk result (λ first. Ok first ≡ turn self.now.state at.block at.offset self.now.batch) }
        ensures fits { IfOk result (λ _. at.offset + n < 2 ^ 64) }
    {
        let mark = self.mark(at.block)?;
        let size = self.below.shape().size;
        if n > size || at.offset > size - n {
            return Err(Refusal::Outside);
        }
        if at.offset % 4 != 0 || n % 4 != 0 {
            return Err(Refusal::NotPages);
        }
        if at.offset < mark {
            return Err(Refusal::BelowMark);
        }
        decide(self.state, at, self.batch)
    }
}

impl<F: Flash> Flash for WriteBuffer<F> {
    ghost meaning = { means };

    fn shape(&self) -> Shape {
        Shape {
            page: 4,
            ..self.below.shape()
        }
    }

    fn mark(&self, block: usize) -> Result<usize, Refusal> {
        let mark = self.below.mark(block)?;
        Ok(match begins(self.state, block) {
            Some(start) => start + reach(&self.held[..self.batch]),
            None => raise(mark, self.batch),
        })
    }

    fn read(&self, at: Place, out: &mut [u8]) -> Result<(), Refusal> {
        self.below.read(at, out)?;
        if let Some(start) = begins(self.state, at.block) {
            cover(out, at.offset, &self.held[..self.batch], start);
        }
        Ok(())
    }

    fn program(&mut self, at: Place, bytes: &[u8]) -> Result<(), Refusal> {
        if let Some(start) = self.admit(at, bytes.len())? {
            self.pass_down(start)?;
        }
        self.lay(Run { at, bytes })
    }

    fn erase(&mut self, block: usize) -> Result<(), Refusal> {
        self.below.mark(block)?;
        let answer = self.below.erase(block);
        self.state = left(answer, self.state, block);
        self.held = kept(self.state, self.held);
        answer
    }

    fn arm(&mut self, steps: usize, fault: u8) -> Result<(), Refusal> {
        self.below.arm(steps, fault)
    }

    fn restart(&mut self) {
        self.below.restart();
        self.state = State::Empty;
        self.held = [0xff; 512];
    }

    ghost sane = { means-sane F.sane };
}
