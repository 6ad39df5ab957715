// What several of the programs that try things use: numbers that tell rows of numbers apart, numbers that look random, nodes
// that pass, and what a walk of a block met. What prints is in each program, alike though it be: a function that is public has a
// contract, and none can say what is printed.
#![tactic(auto)]

pub mod digest;
pub mod met;
pub mod random;
pub mod sample;
