// The check of a whole table: each record keeps the rules, each node is linked into its chain, and nothing lies behind the last. One step a
// record, one a link, one a word: so its time goes with the lengths, whatever was lent.
ghost use Rattle.std.specs.Prelude.{◌≡◌, ℕ, ◌*◌, ◌<◌, ◌≤◌, length};
ghost use Rattle.chains.specs.Local.{tally};
ghost use Rattle.chains.specs.Row.{words};
ghost use Rattle.std.specs.Prelude.{Decides};
ghost use Rattle.table.specs.Layout.{most_nodes, Lengths, start, room};
ghost use Rattle.table.specs.Lending.{store_in};
ghost use Rattle.table.specs.Checking.{Judges, Rest, Recorded, LinkedAt, found, nodes_found, edges_found};

use super::index::{comes_before, scaled};
use super::lent::{Table, Used};
use super::limits::RECORD_WORDS;
use super::rules::rules_hold;
use super::words::{blanks_from, count_of, names, one_for, word, zeros_between, zeros_from};

// Whether record n, after records with e edges, keeps the rules and the index holds its hash.
pub fn is_recorded(table: &Table, n: usize, e: usize) -> bool
    requires { (Lengths (length table.now.nodes.now) (length table.now.children.now) (length table.now.cuts.now) (length table.now.index.now)) × (n < room table.now.nodes.now) × (e ≡ start table.now.nodes.now n) × (e ≤ length table.now.children.now) }
    ensures { Decides result (Recorded (store_in table.now) table.now.index.now n) }
{
    let rooms = table.nodes.len() / RECORD_WORDS;
    rules_hold(table, n, e) == Some(word(table.index, rooms * 3 + n))
}

// Whether node n, of u, is the first of its bucket, or it and a node of its bucket that comes before it name one another.
pub fn is_linked(table: &Table, u: usize, n: usize) -> bool
    requires { (Lengths (length table.now.nodes.now) (length table.now.children.now) (length table.now.cuts.now) (length table.now.index.now)) × (u ≤ room table.now.nodes.now) × (n < u) × ((m : ℕ) → m < u → Recorded (store_in table.now) table.now.index.now m) }
    ensures { Decides result (LinkedAt (store_in table.now) table.now.index.now u n) }
{
    let rooms = table.nodes.len() / RECORD_WORDS;
    let hash = word(table.index, rooms * 3 + n);
    let bucket = scaled(hash, rooms);
    let before = word(table.index, rooms * 2 + n);
    if before == 0 {
        return names(table.index, bucket, n);
    }
    // It may come after n in number: all records were checked before, so that any of them may be compared.
    if u < before {
        return false;
    }
    let m = before - 1;
    if !names(table.index, rooms + m, n) {
        return false;
    }
    let other = word(table.index, rooms * 3 + m);
    let home = scaled(other, rooms);
    if home != bucket {
        return false;
    }
    // In order along each link: so no two nodes of a bucket are the same, and no walk along its chain is needed to see that.
    comes_before(table, m, other, n, hash)
}

// Whether each of u nodes is linked.
pub fn are_linked(table: &Table, u: usize) -> bool
    requires { (Lengths (length table.now.nodes.now) (length table.now.children.now) (length table.now.cuts.now) (length table.now.index.now)) × (u ≤ room table.now.nodes.now) × ((m : ℕ) → m < u → Recorded (store_in table.now) table.now.index.now m) }
    ensures { Decides result ((n : ℕ) → n < u → LinkedAt (store_in table.now) table.now.index.now u n) }
{
    for n in 0..u {
        if !is_linked(table, u, n) {
            return false;
        }
    }
    true
}

// How many of the first n words are not 0: counted to the end, so that the compiler reads many at once.
#[tactic(auto, using(crate::proofs::Laws::tally_none, crate::proofs::Laws::tally_next))]
pub fn full_words(index: &[u32], n: usize) -> usize
    requires { (n ≤ length index.now) × (n ≤ most_nodes * 2) }
    ensures { result ≡ tally (words index.now) n }
{
    let mut full = 0;
    // By number, as in `blanks_from`.
    for i in 0..n {
        full += one_for(word(index, i));
    }
    full
}

// Whether nothing lies behind n nodes and e edges, and n words lead to nodes.
pub fn rest_holds(table: &Table, n: usize, e: usize) -> bool
    requires { (Lengths (length table.now.nodes.now) (length table.now.children.now) (length table.now.cuts.now) (length table.now.index.now)) × (n ≤ room table.now.nodes.now) × (e ≤ length table.now.children.now) }
    ensures { Decides result (Rest (store_in table.now) table.now.index.now n e) }
{
    let rooms = table.nodes.len() / RECORD_WORDS;
    zeros_from(table.nodes, n * RECORD_WORDS)
        && zeros_from(table.children, e)
        && blanks_from(table.cuts, e)
        && zeros_between(table.index, rooms + n, rooms * 2)
        && zeros_between(table.index, rooms * 2 + n, rooms * 3)
        && zeros_from(table.index, rooms * 3 + n)
        // One word leads to each node, its bucket's or that of the node before it: a word too many shows in the count.
        && full_words(table.index, rooms + n) == n
}

// The used counts of a table that is sound.
#[tactic(auto, using(crate::proofs::Laws::start_none))]
pub fn judge(table: &Table) -> Option<Used>
    requires { Lengths (length table.now.nodes.now) (length table.now.children.now) (length table.now.cuts.now) (length table.now.index.now) }
    ensures { Judges (store_in table.now) table.now.index.now (nodes_found result) (edges_found result) (found result) }
{
    let rooms = table.nodes.len() / RECORD_WORDS;
    let mut used = Used { nodes: 0, edges: 0 };
    for n in 0..rooms {
        let count = count_of(table.nodes, n);
        // No count of nodes is lent, so none can be wrong: the first record without edges ends them.
        if count == 0 {
            break;
        }
        if !is_recorded(table, n, used.edges) {
            return None;
        }
        used = Used {
            nodes: n + 1,
            edges: used.edges + count,
        };
    }
    // After all records, since a link may lead to a later one.
    if are_linked(table, used.nodes) && rest_holds(table, used.nodes, used.edges) {
        Some(used)
    } else {
        None
    }
}
