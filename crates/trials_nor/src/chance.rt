// Tries random calls in a row, cuts of the power among them: the answers and what reads gave are folded into a number, printed
// now and then.
use crate::call::{Answer, Trial};
use flash::interface::Flash;
use flash::place::Place;
use trials::digest::Digest;
use trials::random::Random;

// The answer as a number.
impl From<Answer> for u32 {
    fn from(Answer(answer): Answer) -> u32 {
        match answer {
            Ok(value) => (value % 65536) as u32,
            Err(refusal) => 65536 + u32::from(u8::from(refusal)),
        }
    }
}

impl<F: Flash + Drop> Trial<'_, F> {
    // A place near the mark, mostly one that can be programmed.
    fn near(&self, random: &mut Random, block: usize) -> Place {
        let mark = self.flash.mark(block).unwrap_or(0);
        let up = match random.below(8) {
            0 => random.below(4097),
            1 => random.below(4),
            2 => random.below(1000) * 4,
            _ => random.below(2) * 4,
        };
        let down = match random.below(8) {
            0 => 4,
            _ => 0,
        };
        Place {
            block,
            offset: mark.saturating_add(up as usize).saturating_sub(down),
        }
    }

    // Reads up to 300 bytes anywhere, and answers their sum with the answer's number.
    fn glance(&self, random: &mut Random, block: usize) -> anyhow::Result<u32> {
        let offset = random.below(4097) as usize;
        let n = random.below(300) as usize;
        let mut out = vec![in self.rt.alloc(); 0xa5; n]?;
        let answer = Answer::from(self.flash.read(Place { block, offset }, &mut out));
        Ok(crc32::sum_of(&out).with(answer.into()))
    }

    // Programs up to 36 bytes, mostly whole words.
    fn write(&mut self, random: &mut Random, block: usize) -> anyhow::Result<u32> {
        let at = self.near(random, block);
        let bits = random.below(256) as u8;
        let more = u32::from(random.below(10) == 0);
        let n = random.below(9) * 4 + more;
        Ok(self.program(bits, at, n as usize)?.into())
    }

    // One call, whose answer is a number.
    fn turn(&mut self, random: &mut Random) -> anyhow::Result<u32> {
        let block = random.below(9) as usize / 2;
        Ok(match random.below(10) {
            0 => Answer::from(self.flash.erase(block)).into(),
            1 => {
                let steps = random.below(12) as usize;
                let fault = random.below(256) as u8;
                Answer::from(self.flash.arm(steps, fault)).into()
            }
            2 => {
                self.flash.restart();
                0
            }
            3 => Answer(self.flash.mark(block)).into(),
            4 | 5 => self.glance(random, block)?,
            _ => self.write(random, block)?,
        })
    }

    pub(crate) fn try_chance(&mut self) -> anyhow::Result<()> {
        println!(self.rt; "random calls")?;
        let mut random = Random { state: 7 };
        let mut all: u32 = 1;
        for i in 0..4000u32 {
            all = all.with(self.turn(&mut random)?);
            if i % 200 == 199 {
                println!(self.rt; "{i}: {all:08x}")?;
            }
        }
        Ok(())
    }
}
