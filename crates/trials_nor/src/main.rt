// Trials of the NOR chip: what it refuses and in which order, and what a cut of the power leaves. The file `stdout` is written
// by the model, which knows nothing of this code.
#![tactic(auto)]

mod call;
mod chance;
mod cuts;
mod refusals;
mod sizes;

use anyhow::bail;
use call::Trial;
use devices::nor::Nor;

fn run(rt: &HostRuntime) -> anyhow::Result<()> {
    sizes::try_sizes(rt)?;
    let mut memory = vec![in rt.alloc(); 0; 4 * 4096]?;
    let Ok(flash) = Nor::new(&mut memory) else {
        bail!("no chip");
    };
    let mut trial = Trial { rt, flash };
    trial.try_calls("refusals", &refusals::REFUSALS)?;
    trial.try_calls("without power", &refusals::WITHOUT_POWER)?;
    trial.try_cuts()?;
    trial.try_erases()?;
    trial.try_calls("counts", &cuts::COUNTS)?;
    trial.try_chance()
}

fn main(rt: HostRuntime) -> anyhow::Result<()> {
    run(&rt)
}
