// Cuts of the power at each step of a program and of an erase, with several faults.
use crate::call::{Answer, Call, Trial};
use flash::interface::Flash;
use flash::place::Place;

static FAULTS: [u8; 5] = [0, 0x01, 0x10, 0x80, 0xff];

const START: Place = Place {
    block: 0,
    offset: 0,
};

impl<F: Flash + Drop> Trial<'_, F> {
    // Prints what the block holds after a restart, and its mark.
    fn after(&mut self) -> anyhow::Result<()> {
        self.flash.restart();
        print!(self.rt; ",")?;
        let _ = self.look(0)?;
        let mark = Answer(self.flash.mark(0));
        println!(self.rt; ", mark: {mark}")?;
        Ok(())
    }

    // Five words into an erased block.
    fn cut_program(&mut self, n: usize, j: u8) -> anyhow::Result<()> {
        print!(self.rt; "cut program n={n} j={j:02x}")?;
        let _ = self.flash.erase(0);
        let _ = self.flash.arm(n, j);
        let answer = self.program(0, START, 20)?;
        print!(self.rt; ": {answer}")?;
        self.after()
    }

    // The erase of a block that holds a pattern.
    fn cut_erase(&mut self, n: usize, j: u8) -> anyhow::Result<()> {
        print!(self.rt; "cut erase n={n} j={j:02x}")?;
        let _ = self.flash.erase(0);
        let _ = self.program(0, START, 20)?;
        let _ = self.flash.arm(n, j);
        let answer = Answer::from(self.flash.erase(0));
        print!(self.rt; ": {answer}")?;
        self.after()
    }

    pub(crate) fn try_cuts(&mut self) -> anyhow::Result<()> {
        println!(self.rt; "cuts")?;
        for n in 0..7 {
            for &j in &FAULTS {
                self.cut_program(n, j)?;
            }
        }
        Ok(())
    }

    pub(crate) fn try_erases(&mut self) -> anyhow::Result<()> {
        for n in 0..2 {
            for &j in &FAULTS {
                self.cut_erase(n, j)?;
            }
        }
        Ok(())
    }
}

// The second arming replaces the first; steps are counted over programs, erases and blocks.
pub(crate) static COUNTS: [Call; 43] = [
    Call::Erase(0),
    Call::Arm(0, 0x01),
    Call::Arm(2, 0x80),
    Call::Program(0, 0, 0, 20),
    Call::Restart,
    Call::Look(0),
    Call::Mark(0),
    Call::Erase(0),
    Call::Arm(9, 0x01),
    Call::Arm(0, 0x40),
    Call::Program(0, 0, 0, 20),
    Call::Restart,
    Call::Look(0),
    Call::Erase(0),
    Call::Arm(6, 0x10),
    Call::Program(0, 0, 0, 12),
    Call::Erase(0),
    Call::Program(64, 0, 0, 12),
    Call::Mark(0),
    Call::Restart,
    Call::Look(0),
    Call::Mark(0),
    Call::Erase(0),
    Call::Erase(1),
    Call::Arm(4, 0x20),
    Call::Program(0, 0, 0, 8),
    Call::Program(0, 1, 0, 8),
    Call::Erase(1),
    Call::Restart,
    Call::Look(0),
    Call::Look(1),
    Call::Mark(1),
    // a restart disarms
    Call::Erase(0),
    Call::Arm(0, 0xff),
    Call::Restart,
    Call::Program(0, 0, 0, 8),
    Call::Look(0),
    // a whole block is 1024 steps
    Call::Erase(2),
    Call::Arm(1024, 0),
    Call::Program(0, 2, 0, 4096),
    Call::Mark(2),
    Call::Erase(2),
    Call::Restart,
];
