// Layers: flashes that lie on another flash. Start reading at `buffer`; specs/Buffered.antt says what a write buffer means.
#![tactic(auto)]

mod batch;
pub mod buffer;
pub mod calls;
mod causes;
mod pass;
mod run;
