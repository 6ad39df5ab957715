// Calls of any flash.
use crate::answer::{Answer, Values};
use crate::command::{Command, fill};
use flash::interface::Flash;
use flash::place::Place;
use trials::digest::Digest;

// The most bytes of a run.
const MOST: usize = 8192;

// Reads into bytes 0xa5.
fn read<F: Flash>(flash: &F, at: Place, n: usize) -> Answer {
    if n > MOST {
        return Answer::NotUnderstood;
    }
    let mut room = [0xa5; MOST];
    let out = &mut room[..n];
    match flash.read(at, out) {
        Ok(()) => Answer::Done(Values::of_bytes(out)),
        Err(refusal) => Answer::Refused(refusal, Values::of_bytes(out)),
    }
}

// Programs bytes that a simple rule gives.
fn program<F: Flash>(flash: &mut F, at: Place, n: usize, bits: u8) -> Answer {
    if n > MOST {
        return Answer::NotUnderstood;
    }
    let mut room = [0; MOST];
    let run = &mut room[..n];
    fill(run, bits);
    flash.program(at, run).into()
}

fn mark<F: Flash>(flash: &F, block: usize) -> Answer {
    flash.mark(block).map(Values::Number).into()
}

// Restarts, and looks at the mark of the first block.
fn restart<F: Flash>(flash: &mut F) -> Answer {
    flash.restart();
    mark(flash, 0)
}

// Reads the eighths of a block.
fn look<F: Flash>(flash: &F, block: usize) -> Answer {
    let mut room = [0; 528];
    let eighth = if flash.shape().size == 4096 { 512 } else { 528 };
    let out = &mut room[..eighth];
    let mut all: usize = 1;
    let mut readable = 0;
    for i in 0..8usize {
        let offset = i * eighth;
        if flash.read(Place { block, offset }, out).is_ok() {
            all = all.with(crc32::sum_of(out) as usize);
            readable |= 0x80 >> i;
        }
    }
    Answer::Done(Values::Eighths { all, readable })
}

// Makes the call that a line asks for.
pub(crate) fn ask<F: Flash>(flash: &mut F, command: Command) -> Answer {
    match command {
        Command::Card(_) | Command::Shape => Answer::Done(Values::Shape(flash.shape())),
        Command::Mark { block } => mark(flash, block),
        Command::Read { at, n } => read(flash, at, n),
        Command::Program { at, n, bits } => program(flash, at, n, bits),
        Command::Erase { block } => flash.erase(block).into(),
        Command::Arm { steps, fault } => flash.arm(steps, fault).into(),
        Command::Restart => restart(flash),
        Command::Look { block } => look(flash, block),
    }
}
