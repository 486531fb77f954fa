// A lent table as operations work on it.
ghost use Rattle.std.specs.Prelude.{◌≡◌};

use table::lent::{Table, Used};

// The four slices of the caller's, and how much of them is used. That they are a sound table (`Sound`) is said by the contracts: a ghost field
// has to be a proposition, and what a record's child may be is said by a sum of two cases, which may both hold.
// Slices of its own, and no `TableMut` beside a count: contracts then speak of `table.old.nodes`, not of a reference in a reference.
#[derive(Drop)]
pub struct UsedTable<'a> {
    pub nodes: &'a mut [u32],
    pub children: &'a mut [u32],
    pub cuts: &'a mut [i64],
    pub index: &'a mut [u32],
    pub used: Used,
}

impl UsedTable<'_> {
    // The same words, to be read.
    pub fn read(&self) -> Table<'_>
        ensures nodes { result.nodes.now ≡ self.now.nodes.now }
        ensures children { result.children.now ≡ self.now.children.now }
        ensures cuts { result.cuts.now ≡ self.now.cuts.now }
        ensures index { result.index.now ≡ self.now.index.now }
    {
        Table {
            nodes: self.nodes,
            children: self.children,
            cuts: self.cuts,
            index: self.index,
        }
    }
}
