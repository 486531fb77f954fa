// The words of a lent table. These few functions are the only ones that read a node or an edge (request K11 will split the table in two).
ghost use Rattle.std.specs.Prelude.{◌≡◌, ℕ, suc, ◌+◌, ◌*◌, ◌<◌, ◌≤◌, length, get_or, pos, ◌<ℤ◌};
ghost use Rattle.std.specs.Prelude.{Decides};
ghost use Rattle.table.specs.Layout.{most_nodes, var_at, count_at, first_at, spare_at, kid_at, cut_position, cut_at, Lengths};
ghost use Rattle.chains.specs.Local.{some};

use super::limits::{INDEX_WORDS, LOWEST_CUT, MOST_EDGE_ROOM, MOST_NODES, RECORD_WORDS};
use ranges::places::{HIGHEST, LOWEST};

// A record's words: variable, edge count, first edge, a word kept for later.
// Four names, plainer than one function and four offsets. Each takes the slice that it reads, so that its contract says what it rests on.
pub fn var_of(nodes: &[u32], n: usize) -> usize
    requires { n * 4 + 4 ≤ length nodes.now }
    ensures { (result ≡ var_at nodes.now n) × (result < 4294967296) }
{
    nodes[n * RECORD_WORDS] as usize
}

pub fn count_of(nodes: &[u32], n: usize) -> usize
    requires { n * 4 + 4 ≤ length nodes.now }
    ensures { (result ≡ count_at nodes.now n) × (result < 4294967296) }
{
    nodes[n * RECORD_WORDS + 1] as usize
}

pub fn first_of(nodes: &[u32], n: usize) -> usize
    requires { n * 4 + 4 ≤ length nodes.now }
    ensures { (result ≡ first_at nodes.now n) × (result < 4294967296) }
{
    nodes[n * RECORD_WORDS + 2] as usize
}

pub fn spare_of(nodes: &[u32], n: usize) -> usize
    requires { n * 4 + 4 ≤ length nodes.now }
    ensures { (result ≡ spare_at nodes.now n) × (result < 4294967296) }
{
    nodes[n * RECORD_WORDS + 3] as usize
}

// The child of edge i: an id.
pub fn child_at(children: &[u32], i: usize) -> usize
    requires { i < length children.now }
    ensures { (result ≡ kid_at children.now i) × (result < 4294967296) }
{
    children[i] as usize
}

// Word i of the index.
// Beside `child_at`: edges are read there and the index here, and the two part in request K11.
pub fn word(words: &[u32], i: usize) -> usize
    requires { i < length words.now }
    ensures { (result ≡ get_or words.now i 0) × (result < 4294967296) }
{
    words[i] as usize
}

// Whether word i of the index names node n: it is one more than its number.
// 0 names none: a word that C lends holds no `Option` (docs/LAYOUT.md).
pub fn names(words: &[u32], i: usize, n: usize) -> bool
    requires { (i < length words.now) × (n < most_nodes) }
    ensures { Decides result (get_or words.now i 0 ≡ suc n) }
{
    word(words, i) == n + 1
}

// A cut as a number from 1 to 2^33; 0 for a number that is no cut.
// A number and no `Option`: the definition of the same name has 0 there, and `pass` and `choose` go by it.
pub fn cut_position(z: i64) -> usize
    ensures { (result ≡ cut_position z) × (result < 8589934593) }
{
    // The lowest place is the one place that is no cut, so its position, 0, is free to mean that there is none.
    // Two `<`, which today's compiler joins to one comparison; of `contains` it makes two.
    if z < LOWEST_CUT || HIGHEST < z {
        return 0;
    }
    // Only now that it lies between the ends: for any other lent number the difference might overflow.
    (z - LOWEST) as usize
}

// Cut i as a number from 1 to 2^33, or 0.
pub fn cut_position_at(cuts: &[i64], i: usize) -> usize
    requires { i < length cuts.now }
    ensures { (result ≡ cut_position (cut_at cuts.now i)) × (result < 8589934593) }
{
    cut_position(cuts[i])
}

// Whether cut i is empty.
pub fn blank_at(cuts: &[i64], i: usize) -> bool
    requires { i < length cuts.now }
    ensures { Decides result (cut_at cuts.now i ≡ pos 0) }
{
    cuts[i] == 0
}

// Whether cut i is lower than cut j.
pub fn lower_at(cuts: &[i64], i: usize, j: usize) -> bool
    requires { (i < length cuts.now) × (j < length cuts.now) }
    ensures { Decides result (cut_at cuts.now i <ℤ cut_at cuts.now j) }
{
    cuts[i] < cuts[j]
}

// 1 for a number that is not 0.
pub fn one_for(x: usize) -> usize
    ensures { (result ≡ some x) × (result ≤ 1) }
{
    usize::from(x != 0)
}

// Whether the words from `from` to `to` are zero: gathered, and not left early, so that the compiler reads many at once.
#[tactic(auto, using(crate::proofs::Laws::or_zero, crate::proofs::Laws::zero_or))]
pub fn zeros_between(words: &[u32], from: usize, to: usize) -> bool
    requires { (from ≤ to) × (to ≤ length words.now) }
    ensures { Decides result ((i : ℕ) → from ≤ i → i < to → get_or words.now i 0 ≡ 0) }
{
    let mut all = 0;
    // To stop early would only make a refusal quicker: a sound table has to be read to its end anyway.
    // By number, as in `blanks_from`: over `&words[from..to]` it asks for a lemma more, and is no plainer.
    for i in from..to {
        all |= words[i];
    }
    all == 0
}

// Whether the words from `from` on are zero.
pub fn zeros_from(words: &[u32], from: usize) -> bool
    requires { from ≤ length words.now }
    ensures { Decides result ((i : ℕ) → from ≤ i → get_or words.now i 0 ≡ 0) }
{
    zeros_between(words, from, words.len())
}

// Whether the cuts from `from` on are zero, gathered in the same way.
// Beside `zeros_from`: `|` of a type parameter has no law, and a trait with that law for two types would be no plainer.
#[tactic(auto, using(crate::proofs::Laws::or_zero, crate::proofs::Laws::zero_or, crate::proofs::Laws::no_bits))]
pub fn blanks_from(cuts: &[i64], from: usize) -> bool
    requires { from ≤ length cuts.now }
    ensures { Decides result ((i : ℕ) → from ≤ i → get_or cuts.now i (pos 0) ≡ pos 0) }
{
    let mut all = 0;
    // By number: over `&cuts[from..]`, and in `full_words` over `&index[..n]`, two tries of a proof did not close.
    for i in from..cuts.len() {
        all |= cuts[i];
    }
    all == 0
}

// Whether the lengths are allowed.
pub fn lengths_allowed(nodes: usize, children: usize, cuts: usize, index: usize) -> bool
    ensures { Decides result (Lengths nodes children cuts index) }
{
    let room = nodes / RECORD_WORDS;
    (1..=MOST_NODES).contains(&room)
        && nodes == room * RECORD_WORDS
        && (2..=MOST_EDGE_ROOM).contains(&children)
        && cuts == children
        && index == room * INDEX_WORDS
}
