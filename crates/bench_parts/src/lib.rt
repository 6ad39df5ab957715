// What both benches use: the nodes that they lay, the log of what they asked for, and how an answer and bytes are shown.
#![tactic(auto)]

pub mod log;
pub mod pieces;
pub mod show;
