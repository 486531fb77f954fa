// The words of a table, and the sound tables that are damaged.
use table::lent::Table;

// The end places, by the document's numbers and not by the kernel's names: what is lent and expected stands in this program.
pub const LOWEST: i64 = -4294967297;

pub const HIGHEST: i64 = 4294967295;

// R words of node records, E of edges, R of the index.
#[derive(Clone, Copy)]
pub struct Words<const R: usize, const E: usize> {
    pub nodes: [u32; R],
    pub children: [u32; E],
    pub cuts: [i64; E],
    pub index: [u32; R],
}

impl<const R: usize, const E: usize> Words<R, E> {
    pub fn full_of(word: u32) -> Self {
        Words {
            nodes: [word; R],
            children: [word; E],
            cuts: [i64::from(word); E],
            index: [word; R],
        }
    }

    pub fn read(&self) -> Table<'_> {
        Table {
            nodes: &self.nodes,
            children: &self.children,
            cuts: &self.cuts,
            index: &self.index,
        }
    }
}

// Room for 4 records and 10 edges, 3 nodes and 7 edges used.
// Node 0 is boolean 40. Node 1 tests variable 3 with the cuts -5 and 10, and leads to node 0, TRUE and node 0 negated. Node 2 tests
// variable 1 with the cut 5, and leads to TRUE and node 1 negated. Nodes 0 and 2 share bucket 0, so a `next` is in use.
pub const SOUND: Words<16, 10> = Words {
    nodes: [40, 2, 0, 0, 3, 3, 2, 0, 1, 2, 5, 0, 0, 0, 0, 0],
    children: [0, 1, 2, 0, 3, 0, 5, 0, 0, 0],
    cuts: [0, 0, -5, 10, 0, 5, 0, 0, 0, 0],
    index: [
        1, 0, 2, 0, 3, 0, 0, 0, 0, 0, 1, 0, 411767173, 2978375512, 505234245, 0,
    ],
};

// A boolean node alone.
pub const BOOLEAN: Words<4, 3> = Words {
    nodes: [40, 2, 0, 0],
    children: [0, 1, 0],
    cuts: [0, 0, 0],
    index: [1, 0, 0, 411767173],
};

// A range node alone.
pub const RANGE: Words<4, 4> = Words {
    nodes: [3, 3, 0, 0],
    children: [0, 1, 0, 0],
    cuts: [-5, 10, 0, 0],
    index: [1, 0, 0, 3091375842],
};

// Two nodes that one changed word makes twins.
pub const TWINS: Words<8, 4> = Words {
    nodes: [40, 2, 0, 0, 46, 2, 2, 0],
    children: [0, 1, 0, 1],
    cuts: [0, 0, 0, 0],
    index: [1, 0, 2, 0, 0, 1, 411767173, 1824620459],
};

// A node above another.
pub const PARENT: Words<8, 4> = Words {
    nodes: [40, 2, 0, 0, 3, 2, 2, 0],
    children: [0, 1, 2, 0],
    cuts: [0, 0, 7, 0],
    index: [1, 2, 0, 0, 0, 0, 411767173, 2418801138],
};
