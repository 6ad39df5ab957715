// Makes the bytes of items from their fields, and lays them into the image of a block. Start reading at `node`, which makes
// entries and contents; specs/Encode.antt says which bytes these are, and specs/Laws.antt what a walk then meets.
#![tactic(auto)]

pub mod block;
pub mod filler;
pub mod node;
mod words;
