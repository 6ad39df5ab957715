// The bench: one task from beginning to end on a NOR card in memory, printing what was asked, what was answered, what stands
// on the block and what a loss of power took. `task` is the story; the work is done by the libraries.
#![tactic(auto)]

mod show;
mod task;

use anyhow::ensure;
use bench_parts::show::Answer;
use devices::nor::Nor;
use flash::interface::Flash;
use show::Shown;
use task::{BLOCK, perform};

const BLOCKS: usize = 8;

fn run(rt: &HostRuntime) -> anyhow::Result<()> {
    ensure!(
        examples::self_test(),
        "this machine does not compute as proved"
    );
    let mut memory = vec![in rt.alloc(); 0; BLOCKS * BLOCK]?;
    match Nor::new(&mut memory) {
        Ok(card) => {
            let shape = Shown(card.shape());
            println!(rt; "NOR card: {shape}")?;
            perform(rt, card)
        }
        Err((refusal, _)) => {
            let answer = Answer(Err(refusal));
            println!(rt; "{answer}")?;
            Ok(())
        }
    }
}

fn main(rt: HostRuntime) -> anyhow::Result<()> {
    run(&rt)
}
