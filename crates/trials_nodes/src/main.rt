// Trials of the reader of items and of the judge: a table of made blocks, line by line. The file `stdout` is written by the
// model, which knows nothing of this code.
#![tactic(auto)]

mod bad_contents;
mod bad_entries;
mod case;
mod chance;
mod ends;
mod headers;
mod image;
mod tally;

fn run(rt: &HostRuntime) -> anyhow::Result<()> {
    tally::try_cases(rt, "headers", &headers::HEADERS)?;
    tally::try_cases(rt, "entries", &bad_entries::ENTRIES)?;
    tally::try_cases(rt, "contents", &bad_contents::CONTENTS)?;
    tally::try_cases(rt, "block ends", &ends::ENDS)?;
    chance::try_chance(rt)
}

fn main(rt: HostRuntime) -> anyhow::Result<()> {
    run(&rt)
}
