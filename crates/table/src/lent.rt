// A lent table: four slices of the caller's, which hold it together. docs/LAYOUT.md says what their words mean.
ghost use Rattle.std.specs.Prelude.{◌≡◌};

// Lent for reading.
// Parallel slices, since C lends them so; and no ghost field of their lengths, since any may be lent and `check` tells (refusal 1).
#[derive(Clone, Copy)]
pub struct Table<'a> {
    pub nodes: &'a [u32],
    pub children: &'a [u32],
    pub cuts: &'a [i64],
    pub index: &'a [u32],
}

// Lent for writing.
// A struct beside `Table`, since no type parameter stands for `&` and for `&mut`.
#[derive(Drop)]
pub struct TableMut<'a> {
    pub nodes: &'a mut [u32],
    pub children: &'a mut [u32],
    pub cuts: &'a mut [i64],
    pub index: &'a mut [u32],
}

impl TableMut<'_> {
    // The same words, to be read.
    pub fn read(&self) -> Table<'_>
        ensures nodes { result.nodes.now ≡ self.now.nodes.now }
        ensures children { result.children.now ≡ self.now.children.now }
        ensures cuts { result.cuts.now ≡ self.now.cuts.now }
        ensures index { result.index.now ≡ self.now.index.now }
    {
        Table {
            nodes: self.nodes,
            children: self.children,
            cuts: self.cuts,
            index: self.index,
        }
    }
}

// How much of a lent table is used. Its rooms are the lengths of its slices.
#[derive(Clone, Copy)]
pub struct Used {
    pub nodes: usize,
    pub edges: usize,
}
