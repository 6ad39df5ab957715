// A flash by its meaning: what every flash chip, and every layer over one, promises to its user. It knows nothing of what
// is stored. Start reading at `interface`; specs/Meaning.antt says what a flash is, specs/Rules.antt what its calls do.
#![tactic(auto)]

pub mod bytes;
pub mod interface;
pub mod operation;
pub mod place;
pub mod refusal;
pub mod run;
