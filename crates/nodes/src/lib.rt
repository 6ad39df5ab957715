// What stands on an erase block: JFFS2 items. Start reading at `reader`, which hands them out one by one; specs/Walk.antt says
// which they are. `judge` says which of them a mount refuses.
#![tactic(auto)]

pub(crate) mod bytes;
pub mod header;
pub mod image;
pub mod item;
pub mod judge;
pub(crate) mod node;
pub mod reader;
pub mod record;
pub(crate) mod tail;
