// Conditions on one variable. Document 01, step 3; `from_range`, `from_string` and `from_bool` of the source. Each makes at most one node,
// over the terminals.

#![tactic(auto)]

ghost use Rattle.std.specs.Prelude.{◌≡◌, ◌-◌, ◌≤◌, ◌<◌};
ghost use Rattle.ranges.specs.Line.{top};
ghost use Rattle.diagram.specs.Table.{first_boolean, variables, top_of};
ghost use Rattle.diagram.specs.Cofactor.{map};
ghost use Rattle.algebra.specs.Making.{create_node};
ghost use Rattle.algebra.specs.Conditions.{between, terminal, from_range, comparison, from_bool};
ghost use Rattle.making.specs.Building.{Building, pieces_of};
ghost use Rattle.making.specs.Working.{Sound, table_in, SameSlices, MakesNode};
ghost use Rattle.conditions.specs.Few.{few};

use ids::NodeId;
use making::edges::{Edge, Edges};
use making::nodes::{create_pair, settle};
use making::room::NoRoom;
use making::used::UsedTable;
use ranges::bounds::{Bound, Comparison};
use ranges::places::TOP;
use ranges::spans::Range;

// The first `len` of three edges.
// A count and three edges, as the definition `few` has them: a slice would be copied in a loop, and be no plainer.
fn few_edges(len: usize, a: Edge, b: Edge, c: Edge) -> Edges
    requires { (1 ≤ len) × (len ≤ 3) }
    ensures { (Building result) × (pieces_of result ≡ few (len - 1) a b c) }
{
    let mut es = Edges::new();
    es.list[0] = a;
    es.list[1] = b;
    es.list[2] = c;
    es.len = len;
    es
}

// FALSE up to a range of positions, TRUE in it, and FALSE above it. A part without a position has no edge, and so no two neighbours agree.
fn edges_of(r: Range) -> Edges
    requires { (r.first ≤ top) × (r.last ≤ top) }
    ensures { (Building result) × (pieces_of result ≡ map terminal (between r.first r.last top)) }
{
    let below = Edge::new(r.first as usize, NodeId::FALSE);
    let inside = Edge::new(r.last as usize + 1, NodeId::TRUE);
    let above = Edge::new(0, NodeId::FALSE);
    if r.is_empty() {
        return few_edges(1, above, above, above);
    }
    let len = if r.last < TOP { 2 } else { 1 };
    if r.first == 0 {
        return few_edges(len, inside, above, above);
    }
    few_edges(len + 1, below, inside, above)
}

// The condition that variable v lies in a range of positions.
fn within(table: &mut UsedTable, v: usize, range: Range) -> Result<NodeId, NoRoom>
    requires { (Sound table.old) × (v < first_boolean) × (range.first ≤ top) × (range.last ≤ top) }
    ensures makes { MakesNode table.old (create_node (table_in table.old) v (map terminal (between range.first range.last (top_of v)))) result table.new }
    ensures same { SameSlices table.old table.new }
{
    // `settle`, and not `create_node`: no two neighbours agree, so there is nothing to merge.
    settle(table, v, edges_of(range))
}

// "A range by two bounds".
pub fn from_range(
    table: &mut UsedTable,
    v: usize,
    lower: Bound,
    upper: Bound,
) -> Result<NodeId, NoRoom>
    requires { (Sound table.old) × (v < first_boolean) }
    ensures makes { MakesNode table.old (from_range (table_in table.old) v lower upper) result table.new }
    ensures same { SameSlices table.old table.new }
{
    within(table, v, Range::from_bounds(lower, upper))
}

// "Six comparisons with a key: = != < <= > >=". The id for != is that for =, flipped.
pub fn from_comparison(
    table: &mut UsedTable,
    v: usize,
    op: Comparison,
    key: i32,
) -> Result<NodeId, NoRoom>
    requires { (Sound table.old) × (v < first_boolean) }
    ensures makes { MakesNode table.old (comparison (table_in table.old) v op key) result table.new }
    ensures same { SameSlices table.old table.new }
{
    let compared = ranges::spans::from_comparison(op, key);
    let id = within(table, v, compared.range)?;
    Ok(if compared.outside { id.not() } else { id })
}

// A boolean: TRUE at yes, whose edge is the high one and stands first, and FALSE at no.
pub fn from_bool(table: &mut UsedTable, v: usize) -> Result<NodeId, NoRoom>
    requires { (Sound table.old) × (first_boolean ≤ v) × (v < variables) }
    ensures makes { MakesNode table.old (from_bool (table_in table.old) v) result table.new }
    ensures same { SameSlices table.old table.new }
{
    create_pair(table, v, NodeId::TRUE, NodeId::FALSE)
}
