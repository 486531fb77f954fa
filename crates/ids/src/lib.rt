// Ids: `NodeId` of the source, with the range test that its `index` lacks.

#![tactic(auto)]

ghost use Rattle.std.specs.Prelude.{◌≡◌, cond, ◌-◌, ◌^◌, ◌<◌, eqb, leb};
ghost use Rattle.ids.specs.Id.{TRUE, FALSE, id_of, sign, ref, flip, under};
ghost use Rattle.ids.specs.Index.{index_of};

// A reference to a node, or to a terminal: a number with a type of its own. The lowest bit is the complement.
#[derive(Clone, Copy, PartialEq, Eq)]
pub struct NodeId(pub u32);

// What an id names in a table that uses some number of nodes.
#[derive(Clone, Copy, PartialEq, Eq)]
pub enum Index {
    // TRUE or FALSE.
    Terminal,
    // The node of this number.
    Node(u32),
    // No used node: refusal 3.
    Unknown,
}

impl NodeId {
    // The terminal for a condition that always holds.
    pub const TRUE: NodeId = NodeId(0);

    // The terminal for a condition that never holds.
    pub const FALSE: NodeId = NodeId(1);

    // The id of a node, complemented or not. The index leaves room for the complement bit.
    pub fn new(index: u32, complement: bool) -> NodeId
        requires { index < 2 ^ 31 - 1 }
        ensures { result.0 ≡ cond complement (flip (id_of index)) (id_of index) }
    {
        let id = (index + 1) * 2;
        NodeId(if complement { id + 1 } else { id })
    }

    // What the id names, ignoring the complement. The source underflows on a terminal.
    pub fn index(self, used: u32) -> Index
        ensures { result ≡ index_of used self.0 }
    {
        let at = self.0 / 2;
        // Half an id is one more than its node's number. Both terminals have half 0, and are told apart before 1 is taken away.
        if at == 0 {
            return Index::Terminal;
        }
        if at <= used {
            return Index::Node(at - 1);
        }
        Index::Unknown
    }

    // Whether it is a terminal or names a used node.
    pub fn is_known(self, used: u32) -> bool
        ensures { result ≡ leb (ref self.0) used }
    {
        self.0 / 2 <= used
    }

    // Whether the lowest bit is set.
    pub fn is_complement(self) -> bool
        ensures { result ≡ eqb (sign self.0) 1 }
    {
        self.0 % 2 == 1
    }

    // The complement: the lowest bit flipped. No id is refused, and no table is needed.
    pub fn not(self) -> NodeId
        ensures { result.0 ≡ flip self.0 }
    {
        NodeId(if self.is_complement() {
            self.0 - 1
        } else {
            self.0 + 1
        })
    }

    // The complement where the parent is complemented: a child's sign as it is seen when walking down through that parent.
    pub fn negate(self, parent: NodeId) -> NodeId
        ensures { result.0 ≡ under (sign parent.0) self.0 }
    {
        if parent.is_complement() {
            self.not()
        } else {
            self
        }
    }

    pub fn is_true(self) -> bool
        ensures { result ≡ eqb self.0 TRUE }
    {
        self == NodeId::TRUE
    }

    pub fn is_false(self) -> bool
        ensures { result ≡ eqb self.0 FALSE }
    {
        self == NodeId::FALSE
    }
}
