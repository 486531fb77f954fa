// Whether two conditions exclude each other. Document 01, step 6: `is_disjoint` and `is_disjoint_ranges` of the source. No node is made. Pairs
// that were found to exclude each other can be noted in a memo: without it the work may double with each variable.

#![tactic(auto)]

ghost use Rattle.std.specs.Prelude.{◌≡◌, true, false};
ghost use Rattle.ids.specs.Id.{sign, KnownTo};
ghost use Rattle.diagram.specs.Table.{first_boolean};
ghost use Rattle.algebra.specs.Disjointness.{disjoint, is_disjoint};
ghost use Rattle.views.specs.Seeing.{used_in, Readable, seen};
ghost use Rattle.disjointness.specs.Asking.{whole, apart, Opposed, Agreeing, AskedPair, AskedSides, Answers};
ghost use Rattle.table.specs.Lending.{store_in};

use ids::NodeId;
use memo::{in_order, recall, remember};
use table::lent::Table;
use table::limits::{FIRST_BOOLEAN, MEMO_WORDS, VARIABLES};
use views::{View, child, cut, first_variable, opposed, view_of};

// So many pairs are looked at without a memo. Most calls need no more, and to set a memo up would cost them more than their walk.
const FIRST_PAIRS: usize = 32;

// The words of the memo. It is a local array, since no memo is lent; a pair that finds no place in it costs time alone.
const NOTED_WORDS: usize = 512;

// Whether no reading makes both ids true.
pub fn is_disjoint(table: &Table, x: NodeId, y: NodeId) -> bool
    requires { (Readable (store_in table.now) (used_in table.now.nodes.now)) × (KnownTo (used_in table.now.nodes.now) x.0) × (KnownTo (used_in table.now.nodes.now) y.0) }
    ensures { result ≡ is_disjoint (whole (store_in table.now)) x.0 y.0 }
{
    let mut rest = FIRST_PAIRS;
    match ids_disjoint(table, &mut [], x, y, VARIABLES + 1, &mut rest) {
        Some(answer) => answer,
        None => noted_disjoint(table, x, y),
    }
}

// The same from the start again, with a memo: that walk goes on to the end.
fn noted_disjoint(table: &Table, x: NodeId, y: NodeId) -> bool
    requires { (Readable (store_in table.now) (used_in table.now.nodes.now)) × (KnownTo (used_in table.now.nodes.now) x.0) × (KnownTo (used_in table.now.nodes.now) y.0) }
    ensures { result ≡ is_disjoint (whole (store_in table.now)) x.0 y.0 }
{
    let mut noted = [0; NOTED_WORDS];
    let mut rest = 1;
    ids_disjoint(table, &mut noted, x, y, VARIABLES + 1, &mut rest).unwrap_or(false)
}

// One is TRUE, or they are equal: not disjoint, since the other is not FALSE.
fn agreeing(x: NodeId, y: NodeId) -> bool
    ensures { result ≡ Agreeing x.0 y.0 }
{
    x.is_true() || y.is_true() || x == y
}

// Whether both are even. An even id holds at the lowest place of every range variable with every boolean yes (theorem 7): so two of them meet.
fn both_even(x: NodeId, y: NodeId) -> bool
    ensures { result ≡ true → (sign x.0 ≡ 0) × (sign y.0 ≡ 0) }
{
    !x.is_complement() && !y.is_complement()
}

// The walk. "FALSE is disjoint with everything, itself included", so the test for opposed ids comes before the one for equal ids. `ahead` is
// more than the variables that are still ahead, and so more than the calls can nest. With less than a set of words to note in, nothing is
// noted, and the walk gives up after `rest` pairs, with no answer. With a set or more it goes on to the end, if `rest` is not 0.
// No memo is an empty slice and no `None`: a slice is lent on as it is, an `Option` of one would be taken apart at each call.
#[cycle(disjoint)]
fn ids_disjoint(
    table: &Table,
    noted: &mut [u64],
    x: NodeId,
    y: NodeId,
    ahead: usize,
    rest: &mut usize,
) -> Option<bool>
    requires { AskedPair (store_in table.now) noted.old ahead x.0 y.0 }
    ensures { Answers (store_in table.now) noted.new rest.old rest.new (disjoint ahead (whole (store_in table.now)) x.0 y.0) result }
{
    // The source has no such test and goes down to find out. Of any two ids one pair in four ends here, and so does a walk as soon as it
    // comes to such a pair.
    if both_even(x, y) {
        return Some(false);
    }
    // Before the test for equal ids, for the sake of FALSE: it is equal to itself, and disjoint with itself all the same.
    if opposed(x, y) {
        return Some(true);
    }
    // Neither is FALSE any more, and no other id of a sound table is false under every reading: so these two meet.
    if agreeing(x, y) {
        return Some(false);
    }
    nodes_disjoint(table, noted, x, y, ahead, rest)
}

// Two nodes that the opening tests leave: their edges, at the first variable of the two.
// Table, memo and rest stay three parameters, here and below: they are lent in three ways, and contracts speak of each alone.
#[cycle(disjoint)]
fn nodes_disjoint(
    table: &Table,
    noted: &mut [u64],
    x: NodeId,
    y: NodeId,
    ahead: usize,
    rest: &mut usize,
) -> Option<bool>
    requires { (AskedPair (store_in table.now) noted.old ahead x.0 y.0) × (Opposed x.0 y.0 ≡ false) × (Agreeing x.0 y.0 ≡ false) }
    ensures { Answers (store_in table.now) noted.new rest.old rest.new (disjoint ahead (whole (store_in table.now)) x.0 y.0) result }
{
    // No answer: that ends the whole walk.
    if *rest == 0 {
        return None;
    }
    let v = first_variable(table.nodes, x, y);
    let a = view_of(table.nodes, x, v);
    let b = view_of(table.nodes, y, v);
    if noted.len() < MEMO_WORDS {
        *rest -= 1;
        return sides_disjoint(table, noted, a, b, v, ahead - 1, rest);
    }
    // Neither is TRUE any more, and so a word that is no entry, whose first id is 0, cannot answer. Disjointness commutes.
    let (first, second) = in_order(x, y);
    if recall(noted, first, second).is_some() {
        return Some(true);
    }
    let yes = sides_disjoint(table, noted, a, b, v, ahead - 1, rest)?;
    // A pair that is not disjoint is not noted: it ends the whole walk.
    if !yes {
        return Some(false);
    }
    remember(noted, first, second, NodeId::FALSE, v);
    Some(yes)
}

// At variable v: ranges or booleans.
#[cycle(disjoint)]
fn sides_disjoint(
    table: &Table,
    noted: &mut [u64],
    a: View,
    b: View,
    v: usize,
    ahead: usize,
    rest: &mut usize,
) -> Option<bool>
    requires { AskedSides (store_in table.now) noted.old v ahead a b }
    ensures { Answers (store_in table.now) noted.new rest.old rest.new (apart ahead (whole (store_in table.now)) (seen table.now.children.now table.now.cuts.now v a 0) (seen table.now.children.now table.now.cuts.now v b 0)) result }
{
    if v < FIRST_BOOLEAN {
        ranges_disjoint(table, noted, a, b, ahead, rest)
    } else {
        booleans_disjoint(table, noted, a, b, ahead, rest)
    }
}

// At a range variable: "the answer is no at the first overlapping pair of edges whose children aren't disjoint". The right edges that
// end before a left one aren't looked at again for the next.
#[cycle(disjoint)]
fn ranges_disjoint(
    table: &Table,
    noted: &mut [u64],
    a: View,
    b: View,
    ahead: usize,
    rest: &mut usize,
) -> Option<bool>
    requires { AskedSides (store_in table.now) noted.old 0 ahead a b }
    ensures { Answers (store_in table.now) noted.new rest.old rest.new (apart ahead (whole (store_in table.now)) (seen table.now.children.now table.now.cuts.now 0 a 0) (seen table.now.children.now table.now.cuts.now 0 b 0)) result }
{
    let mut answer = true;
    // `j` goes on from one left edge to the next: so it is no index of a loop.
    let mut j = 0;
    // Two loops that are left by a label, with the answer in a flag: docs/SCOPE.md asks for them.
    'left: for i in 0..a.count {
        let x = child(table.children, a, i);
        let k = cut(table.cuts, a, i);
        while j < b.count {
            let y = child(table.children, b, j);
            let yes = ids_disjoint(table, noted, x, y, ahead, rest)?;
            if !yes {
                answer = false;
                break 'left;
            }
            let l = cut(table.cuts, b, j);
            // The left edge ends first: this right one overlaps the next left edge too, so j stays.
            if k < l {
                break;
            }
            j += 1;
            if k == l {
                break;
            }
        }
    }
    Some(answer)
}

// At a boolean variable: the high children, and then the low ones. Of an id that doesn't test it both are the id itself.
#[cycle(disjoint)]
fn booleans_disjoint(
    table: &Table,
    noted: &mut [u64],
    a: View,
    b: View,
    ahead: usize,
    rest: &mut usize,
) -> Option<bool>
    requires { AskedSides (store_in table.now) noted.old first_boolean ahead a b }
    ensures { Answers (store_in table.now) noted.new rest.old rest.new (apart ahead (whole (store_in table.now)) (seen table.now.children.now table.now.cuts.now first_boolean a 0) (seen table.now.children.now table.now.cuts.now first_boolean b 0)) result }
{
    // High before low, as in the source. Nothing is made here, so no id depends on it.
    let x = child(table.children, a, 0);
    let y = child(table.children, b, 0);
    let yes = ids_disjoint(table, noted, x, y, ahead, rest)?;
    if !yes {
        return Some(false);
    }
    let x = child(table.children, a, a.count - 1);
    let y = child(table.children, b, b.count - 1);
    ids_disjoint(table, noted, x, y, ahead, rest)
}
