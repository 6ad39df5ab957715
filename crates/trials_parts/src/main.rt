// Trials of the sums, of what fills a batch, and of the reader where pages cannot be read. The file `stdout` is written by the
// model, which knows nothing of this code.
#![tactic(auto)]

mod fillings;
mod pages;
mod sums;

fn run(rt: &HostRuntime) -> anyhow::Result<()> {
    sums::try_sums(rt)?;
    fillings::try_fillings(rt)?;
    pages::try_pages(rt)
}

fn main(rt: HostRuntime) -> anyhow::Result<()> {
    run(&rt)
}
