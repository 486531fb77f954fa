// The edges of an id at a variable, read where they stand in the table: no operation copies a node to look at it. `NodeId::negate` of the
// source is at work here, "Forgetting to negate a child when its parent id is complemented" being one of document 01's faults.

#![tactic(auto)]

ghost use Rattle.std.specs.Prelude.{◌≡◌, ◌&&◌, ◌||◌, ◌+◌, ◌-◌, ◌*◌, ◌≤◌, ◌<◌, min, ltb, eqb, length};
ghost use Rattle.ids.specs.Id.{FALSE, ref, flip};
ghost use Rattle.views.specs.Seeing.{Inside, Sees, beyond, child_seen, cut_seen};
ghost use Rattle.table.specs.Layout.{var_at};

use ids::NodeId;
use table::words::{child_at, count_of, cut_position_at, first_of, var_of};

// Edges `first` to `first + count - 1` of the table, each child negated if the id is complemented; with count 1, the id itself everywhere.
#[derive(Clone, Copy)]
pub struct View {
    pub first: usize,
    pub count: usize,
    pub id: NodeId,
}

// The cut of a last edge, past each position.
pub const END: usize = 8589934593;

// The variable of the node of an id that is no terminal.
// Here and below a function takes the one slice that it reads: so its contract says what its answer rests on.
pub fn variable(nodes: &[u32], id: NodeId) -> usize
    requires { (2 ≤ id.0) × (ref id.0 * 4 ≤ length nodes.now) }
    ensures { result ≡ var_at nodes.now (ref id.0 - 1) }
{
    var_of(nodes, id.0 as usize / 2 - 1)
}

// The earlier of two such variables: the one that an operation on both ids goes down by.
pub fn first_variable(nodes: &[u32], x: NodeId, y: NodeId) -> usize
    requires { (2 ≤ x.0) × (ref x.0 * 4 ≤ length nodes.now) × (2 ≤ y.0) × (ref y.0 * 4 ≤ length nodes.now) }
    ensures { result ≡ min (var_at nodes.now (ref x.0 - 1)) (var_at nodes.now (ref y.0 - 1)) }
{
    // The earlier one, so that a node of it may stand above whatever the two become below it.
    variable(nodes, x).min(variable(nodes, y))
}

// Whether an id tests a variable before v first. A terminal tests none.
pub fn is_before(nodes: &[u32], id: NodeId, v: usize) -> bool
    requires { ref id.0 * 4 ≤ length nodes.now }
    ensures { result ≡ (ltb 1 id.0 && ltb (var_at nodes.now (ref id.0 - 1)) v) }
{
    // Terminals first: they have no record to read a variable from.
    1 < id.0 && variable(nodes, id) < v
}

// The view of an id that is no terminal at a variable: its edges where it tests the variable, and else the id itself.
pub fn view_of(nodes: &[u32], id: NodeId, v: usize) -> View
    requires { (2 ≤ id.0) × (ref id.0 * 4 ≤ length nodes.now) }
    ensures { Sees nodes.now v id.0 result }
{
    // By the number, here and above: `NodeId::index` asks how many nodes are used, which nobody here knows or needs.
    let n = id.0 as usize / 2 - 1;
    // No caller asks past the id's own variable, so the id says the same wherever v is: seen as one edge to itself it is merged like any
    // other side, and the source's `map` needs no walk of its own. No node has one edge, so count 1 means nothing else.
    if var_of(nodes, n) != v {
        return View {
            first: 0,
            count: 1,
            id,
        };
    }
    View {
        first: first_of(nodes, n),
        count: count_of(nodes, n),
        id,
    }
}

// The same of any id: a terminal tests no variable.
pub fn view_at(nodes: &[u32], id: NodeId, v: usize) -> View
    requires { ref id.0 * 4 ≤ length nodes.now }
    ensures { Sees nodes.now v id.0 result }
{
    if id.0 < 2 {
        return View {
            first: 0,
            count: 1,
            id,
        };
    }
    view_of(nodes, id, v)
}

// Child j of a view.
pub fn child(children: &[u32], w: View, j: usize) -> NodeId
    requires { (Inside (length children.now) w) × (j < w.count) }
    ensures { result.0 ≡ child_seen children.now w j }
{
    // Not negated: the sign is in the id already.
    if w.count == 1 {
        return w.id;
    }
    NodeId(child_at(children, w.first + j) as u32).negate(w.id)
}

// The cut of edge j of a view of a range variable, or END for its last edge.
pub fn cut(cuts: &[i64], w: View, j: usize) -> usize
    requires { (Inside (length cuts.now) w) × (j < w.count) }
    ensures { (j + 1 < w.count → result ≡ cut_seen cuts.now 0 w j) × (w.count ≤ j + 1 → result ≡ beyond) × (result ≤ beyond) }
{
    if j + 1 < w.count {
        return cut_position_at(cuts, w.first + j);
    }
    // The 0 that is stored beside a last edge is no cut. END is past each position, so that this edge takes whatever is left.
    END
}

// One is FALSE, or they are opposite: they exclude each other, whatever the table.
pub fn opposed(x: NodeId, y: NodeId) -> bool
    ensures { result ≡ (eqb x.0 FALSE || (eqb y.0 FALSE || eqb (flip x.0) y.0)) }
{
    x.is_false() || y.is_false() || x.not() == y
}
