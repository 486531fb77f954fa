// Node making: finding a node, adding it, and the calls that do both.
ghost use Rattle.std.specs.Prelude.{◌≡◌, ℕ, suc, ◌+◌, ◌*◌, ◌/◌, ◌<◌, ◌≤◌, length};
ghost use Rattle.ids.specs.Id.{sign, under};
ghost use Rattle.diagram.specs.Table.{variables, first_boolean, most_edges};
ghost use Rattle.diagram.specs.Sound.{Child};
ghost use Rattle.algebra.specs.Making.{settle as settled, create_node};
ghost use Rattle.std.specs.Prelude.{Decides};
ghost use Rattle.table.specs.Layout.{most_nodes, most_edge_room, room};
ghost use Rattle.making.specs.Building.{Building, child_in, cut_in, node_of, hash_in, pieces_of};
ghost use Rattle.making.specs.Growing.{NodeIn};
ghost use Rattle.making.specs.Seeking.{Finds};
ghost use Rattle.making.specs.Storing.{EdgesPut, RecordPut};
ghost use Rattle.making.specs.Outcome.{Buildable, Mergeable, Added, create_pair};
ghost use Rattle.making.specs.Working.{Sound, stored, table_in, SameSlices, MakesNode};

use super::chain::{Spot, find, splice};
use super::edges::{Edge, EdgeList, Edges, TwoEdges, hash_edges, merge_neighbours, stored_cut};
use super::room::NoRoom;
use super::used::UsedTable;
use ids::NodeId;
use table::index::scaled;
use table::lent::Used;
use table::limits::RECORD_WORDS;

// The id of a node that the table has. Where the flipped node was stored, the id gets the sign that the node lost.
fn known(at: usize, lead: NodeId) -> NodeId
    requires { at ≤ most_nodes }
    ensures { result.0 ≡ under (sign lead.0) (at * 2) }
{
    NodeId(at as u32 * 2).negate(lead)
}

// Writes the edges of a node from edge e on.
fn put_edges<E: EdgeList>(
    children: &mut [u32],
    cuts: &mut [i64],
    e: usize,
    v: usize,
    lead: NodeId,
    es: &E,
)
    requires { (Building (E.edges es.now)) × (e + (E.edges es.now).len ≤ length children.old) × (length cuts.old ≡ length children.old) × ((j : ℕ) → j + 1 < (E.edges es.now).len → cut_in (E.edges es.now) j < 8589934593) }
    ensures { EdgesPut children.old cuts.old e v (sign lead.0) (E.edges es.now) children.new cuts.new }
{
    let count = es.count();
    for j in 0..count {
        let edge = es.edge(j);
        // Here the flip is made: seen under the sign of the first child, the first child itself is plain.
        children[e + j] = edge.child.negate(lead).0;
        cuts[e + j] = stored_cut(v, j, count, edge.cut);
    }
}

// Writes record n; its fourth word is 0 and stays so.
pub fn put_record(nodes: &mut [u32], n: usize, v: u32, count: u32, first: u32)
    requires { n * 4 + 4 ≤ length nodes.old }
    ensures { RecordPut nodes.old n v count first nodes.new }
{
    nodes[n * RECORD_WORDS] = v;
    nodes[n * RECORD_WORDS + 1] = count;
    nodes[n * RECORD_WORDS + 2] = first;
}

// The record and the index of a node whose edges are written behind the used ones, at the spot that was found for it.
// Two slices, and no table: so the contract says that children and cuts stay.
fn enter(
    nodes: &mut [u32],
    index: &mut [u32],
    used: Used,
    v: usize,
    count: usize,
    h: usize,
    s: Spot,
) -> Used
    requires { (length index.old ≡ room nodes.old * 4) × (room nodes.old ≤ most_nodes) × (used.nodes < room nodes.old) × (used.edges ≤ most_edge_room) × (v < variables) × (count ≤ most_edges) × (h < 4294967296) × (s.before ≤ used.nodes) × (s.behind ≤ used.nodes) }
    ensures { (RecordPut nodes.old used.nodes v count used.edges nodes.new) × (NodeIn (room nodes.old) used.nodes (h * room nodes.old / 4294967296) s.before s.behind h index.old index.new) × (result.nodes ≡ used.nodes + 1) × (result.edges ≡ used.edges + count) }
{
    let rooms = nodes.len() / RECORD_WORDS;
    let n = used.nodes;
    let e = used.edges;
    put_record(nodes, n, v as u32, count as u32, e as u32);
    let one = n as u32 + 1;
    splice(
        index,
        rooms,
        n,
        scaled(h, rooms),
        s.before,
        s.behind,
        one,
        one,
        s.behind as u32,
        s.before as u32,
        h as u32,
    );
    Used {
        nodes: n + 1,
        edges: e + count,
    }
}

// "Or add it as the next number", where there is room for it. Its number is one less than the nodes that are used then.
fn add<E: EdgeList>(table: &mut UsedTable, v: usize, lead: NodeId, es: &E, h: usize, s: Spot)
    requires { (Sound table.old) × (Buildable (table_in table.old) v (E.edges es.now)) × (2 ≤ (E.edges es.now).len) × (lead.0 ≡ child_in (E.edges es.now) 0) × (h ≡ hash_in v (sign lead.0) (E.edges es.now) (E.edges es.now).len) × (Finds (stored table.old) table.old.used.nodes v (sign lead.0) (E.edges es.now) s) × (s.at ≡ 0) × (table.old.used.nodes < room table.old.nodes.now) × (table.old.used.edges + (E.edges es.now).len ≤ length table.old.children.now) }
    ensures added { Added table.old.used (node_of v (sign lead.0) (E.edges es.now)) table.new.used (stored table.old) (stored table.new) table.new.index.now }
    ensures same { SameSlices table.old table.new }
{
    put_edges(table.children, table.cuts, table.used.edges, v, lead, es);
    table.used = enter(table.nodes, table.index, table.used, v, es.count(), h, s);
}

// Whether there is room for one node more, with `count` edges.
fn has_room(rooms: usize, span: usize, used: Used, count: usize) -> bool
    requires { (used.nodes ≤ rooms) × (rooms ≤ most_nodes) × (used.edges ≤ span) × (span ≤ most_edge_room) × (count ≤ most_edges) }
    ensures { Decides result ((used.nodes < rooms) × (used.edges + count ≤ span)) }
{
    used.nodes < rooms && used.edges + count <= span
}

// "Or add it as the next number", where there is room for it: a node that is not in the table yet.
pub fn extend<E: EdgeList>(
    table: &mut UsedTable,
    v: usize,
    lead: NodeId,
    es: &E,
    h: usize,
    s: Spot,
) -> Result<NodeId, NoRoom>
    requires { (Sound table.old) × (Buildable (table_in table.old) v (E.edges es.now)) × (2 ≤ (E.edges es.now).len) × (lead.0 ≡ child_in (E.edges es.now) 0) × (h ≡ hash_in v (sign lead.0) (E.edges es.now) (E.edges es.now).len) × (Finds (stored table.old) table.old.used.nodes v (sign lead.0) (E.edges es.now) s) × (s.at ≡ 0) }
    ensures makes { MakesNode table.old (settled (table_in table.old) v (pieces_of (E.edges es.now))) result table.new }
    ensures same { SameSlices table.old table.new }
{
    let words = table.read();
    if !has_room(
        words.nodes.len() / RECORD_WORDS,
        words.children.len(),
        table.used,
        es.count(),
    ) {
        return Err(NoRoom);
    }
    add(table, v, lead, es, h, s);
    Ok(known(table.used.nodes, lead))
}

// "Find it or add it as the next number": the id of variable v over merged edges, of which there are two or more.
fn find_or_add<E: EdgeList>(table: &mut UsedTable, v: usize, es: &E) -> Result<NodeId, NoRoom>
    requires { (Sound table.old) × (Buildable (table_in table.old) v (E.edges es.now)) × (2 ≤ (E.edges es.now).len) }
    ensures makes { MakesNode table.old (settled (table_in table.old) v (pieces_of (E.edges es.now))) result table.new }
    ensures same { SameSlices table.old table.new }
{
    // "Flip if the first child is complemented", since a node and its flipped twin would be two ids for one condition. No flipped copy is
    // made: the node is hashed, compared and stored with each child seen under the sign of the first, and its id gets that sign.
    let lead = es.edge(0).child;
    let h = hash_edges(v, lead, es);
    // Looked for before room is asked for: a full table still answers with the nodes that it has (C16).
    let s = find(&table.read(), v, lead, es, h);
    if 0 < s.at {
        return Ok(known(s.at, lead));
    }
    extend(table, v, lead, es, h, s)
}

// The same for an array. A function of its own: to lend the array copies it (1 KB), and in `settle` itself that would be done for nodes of
// two edges too.
fn find_or_add_array(table: &mut UsedTable, v: usize, es: Edges) -> Result<NodeId, NoRoom>
    requires { (Sound table.old) × (Buildable (table_in table.old) v es) × (2 ≤ es.len) }
    ensures makes { MakesNode table.old (settled (table_in table.old) v (pieces_of es)) result table.new }
    ensures same { SameSlices table.old table.new }
{
    find_or_add(table, v, &es)
}

// The id of variable v over merged edges: "drop the node if all children agree, else find it or add it as the next number". Where there is
// no room for it, nothing is written.
pub fn settle(table: &mut UsedTable, v: usize, es: Edges) -> Result<NodeId, NoRoom>
    requires { (Sound table.old) × (Buildable (table_in table.old) v es) }
    ensures makes { MakesNode table.old (settled (table_in table.old) v (pieces_of es)) result table.new }
    ensures same { SameSlices table.old table.new }
{
    // Of merged edges all children agree exactly when one edge is left: the child stands for the node.
    let first = es.list[0];
    if es.len == 1 {
        return Ok(first.child);
    }
    // Most nodes have two edges, as thresholds and switches have them. These are made from the two alone.
    if es.len == 2 {
        return find_or_add(
            table,
            v,
            &TwoEdges {
                first,
                second: es.list[1],
            },
        );
    }
    find_or_add_array(table, v, es)
}

// Node making, from edges whose neighbours may still agree: "neighbouring edges with equal children are merged first". `create_node` of the
// source, which does not merge, and so gives equal conditions two ids (docs/DIFFERENCES.md).
pub fn create_node(table: &mut UsedTable, v: usize, mut es: Edges) -> Result<NodeId, NoRoom>
    requires { (Sound table.old) × (Mergeable (table_in table.old) v es) }
    ensures makes { MakesNode table.old (create_node (table_in table.old) v (pieces_of es)) result table.new }
    ensures same { SameSlices table.old table.new }
{
    merge_neighbours(&mut es);
    settle(table, v, es)
}

// The same for a boolean variable, from its two children.
pub fn create_pair(
    table: &mut UsedTable,
    v: usize,
    high: NodeId,
    low: NodeId,
) -> Result<NodeId, NoRoom>
    requires { (Sound table.old) × (first_boolean ≤ v) × (v < variables) × (Child (table_in table.old) (suc v) high.0) × (Child (table_in table.old) (suc v) low.0) }
    ensures makes { MakesNode table.old (create_pair (table_in table.old) v high.0 low.0) result table.new }
    ensures same { SameSlices table.old table.new }
{
    // "Drop the node if all children agree".
    if high == low {
        return Ok(high);
    }
    // A boolean has two positions, 0 for yes and 1 for no, so the high edge ends before 1.
    find_or_add(
        table,
        v,
        &TwoEdges {
            first: Edge::new(1, high),
            second: Edge::new(0, low),
        },
    )
}
