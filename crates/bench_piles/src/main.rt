// The bench: one task on a NOR card, and on a write buffer over a NAND card, both in memory, with losses of power in it. It
// prints what was asked, what was answered, what stands on the block and what was lost. `story` has the steps of the task,
// `task` carries them out on any flash and prints; the work is done by the libraries.
#![tactic(auto)]

mod show;
mod story;
mod task;

use bench_parts::show::Answer;
use devices::nand::Nand;
use devices::nor::Nor;
use devices::pages::NandPage;
use flash::interface::Flash;
use flash::refusal::Refusal;
use layers::buffer::WriteBuffer;
use std::io;
use story::{Cut, perform};
use task::Task;

// The bytes of a card of 8 blocks.
const CARD: usize = 8 * 4096;

// Prints that a flash could not be put together.
fn refused(rt: &HostRuntime, what: &str, refusal: Refusal) -> io::Result<()> {
    let answer = Answer(Err(refusal));
    println!(rt; "{what}: {answer}")
}

fn on_nor(rt: &HostRuntime, memory: &mut [u8]) -> io::Result<()> {
    let card = match Nor::new(memory) {
        Ok(card) => card,
        Err((refusal, _)) => return refused(rt, "NOR", refusal),
    };
    let in_word = Cut {
        what: "arm, 9 steps succeed and the next takes the fault 0x10",
        steps: 9,
        fault: 0x10,
    };
    let mut task = Task::new(rt, card);
    perform(&mut task, "NOR, power cut in a word", Some(in_word));
    task.ends()
}

fn on_pages<F: Flash + Drop>(rt: &HostRuntime, card: F) -> io::Result<()> {
    let in_page = Cut {
        what: "arm, the next step takes the fault 0x10",
        steps: 0,
        fault: 0x10,
    };
    let off_page = Cut {
        what: "arm, the next step takes the fault 0x11, which is odd",
        steps: 0,
        fault: 0x11,
    };
    let mut task = Task::new(rt, card);
    for (title, cut) in [
        ("\nwrite buffer on NAND, restart while bytes are held", None),
        ("\nwrite buffer on NAND, power cut in a page", Some(in_page)),
        (
            "\nwrite buffer on NAND, power cut that makes a page unreadable",
            Some(off_page),
        ),
    ] {
        perform(&mut task, title, cut);
    }
    task.ends()
}

fn on_nand(rt: &HostRuntime, memory: &mut [u8]) -> io::Result<()> {
    let chip = match Nand::new(memory, NandPage::P512) {
        Ok(chip) => chip,
        Err((refusal, _)) => return refused(rt, "NAND", refusal),
    };
    match WriteBuffer::new(chip) {
        Ok(card) => on_pages(rt, card),
        Err((refusal, _)) => refused(rt, "write buffer", refusal),
    }
}

fn run(rt: &HostRuntime) -> io::Result<()> {
    if !examples::self_test() {
        return rt.println("this machine does not compute as proved");
    }
    let mut memory = vec![in rt.alloc(); 0; CARD]?;
    // both are tried, whatever could not be printed of the first
    let nor = on_nor(rt, &mut memory);
    let nand = on_nand(rt, &mut memory);
    nor.and(nand).map_err(|_| io::ErrorKind::Other.into())
}

fn main(rt: HostRuntime) -> io::Result<()> {
    run(&rt)
}
