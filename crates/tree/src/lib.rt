// The rules of the tree over plain nodes, and what follows from them. `supersedes` is the one rule that all of it rests on.
// Start reading at specs/Newest.antt, Tree.antt and Needed.antt; specs/Laws.antt has what follows.
#![tactic(auto)]

ghost use Rattle.std.specs.Prelude.{◌≡◌, nat_lt};
ghost use Rattle.tree.specs.Laws.{Lawful};

fn above(a: u32, b: u32) -> bool
    ensures { result ≡ nat_lt b a }
{
    a > b
}

// Whether a record supersedes one of the same key, by their versions. Its contract carries the laws that follow from it.
pub fn supersedes(version: u32, other: u32) -> bool
    ensures value { result ≡ nat_lt other version }
    ensures laws { Lawful }
{
    above(version, other)
}
