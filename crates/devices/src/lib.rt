// Model flash chips in the caller's memory, with a power supply that can be made to fail. Start reading at `nor` and `nand`.
#![tactic(auto)]

pub mod bank;
pub mod memory;
pub mod nand;
pub mod nor;
pub mod pages;
pub mod supply;
