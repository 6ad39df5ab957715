// The index of a store: a record in memory of each node that stands, block by block, and what is looked up in it.
// Start reading at `block`, then `newest`, the one rule, and the look-ups in `entries` and `contents`; `needed` and `spent` say
// what can be done without. Each look-up takes the blocks as a slice, however a store keeps them: a struct round that one slice
// would say no more.
#![tactic(auto)]

pub mod block;
pub mod contents;
mod elsewhere;
pub mod entries;
mod kind;
pub mod name;
mod needed;
mod newest;
pub mod numbers;
pub mod record;
pub mod run;
pub mod spent;
