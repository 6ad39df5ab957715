// Which losses of power are fair, and what they leave of a block. Start reading at `fair`; specs/Fair.antt says when a loss
// is fair, and specs/Laws.antt what holds then.
#![tactic(auto)]

pub(crate) mod compare;
pub mod fair;
