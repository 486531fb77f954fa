// The lent memo: what pairs of ids were found to give, overwritten freely. It stands in for the source's cache, which keeps everything.
//
// Eight words are a set, and a pair is looked for in one set. Word 0 is the head: how many sets are in use, and how many answers were
// written. An operation begins with few sets and takes more as they fill, so that a short one touches little; the words behind the sets in
// use are zero. Which set, and which word of it, matters for time alone: an entry names its pair in full.

#![tactic(auto)]

ghost use Rattle.std.specs.Prelude.{◌≡◌, IfSome, ◌+◌, ◌*◌, ◌/◌, ◌≤◌, ◌<◌, length, replicate};
ghost use Rattle.diagram.specs.Table.{variables};
ghost use Rattle.table.specs.Layout.{most_nodes};
ghost use Rattle.memo.specs.Recalling.{ids, sets_in, Tells, Framed, Ordered, Found, Hit, Put, Kept, Readied, Noted};

use ids::NodeId;
use table::index::{mixed, scaled};
use table::limits::MEMO_WORDS;

// Ids have 18 bits each in an entry, and so at most 131,071 nodes: room for twice what request K6 asks.
const IDS: u64 = 262144;

const PAIRS: u64 = 68719476736;

// An operation begins with at most so many sets.
const FIRST_SETS: usize = 32;

// A pair that is the same in either order is noted once: the smaller id first.
// By the numbers: an order of ids means nothing, and so `NodeId` derives none.
pub fn in_order(x: NodeId, y: NodeId) -> (NodeId, NodeId)
    ensures { Ordered x.0 y.0 result.0.0 result.1.0 }
{
    if y.0 < x.0 { (y, x) } else { (x, y) }
}

// How long an entry stays, by the variable of its pair: of a full set the smallest word is written over, an empty one before every entry. Pairs
// at every eighth variable are checkpoints that stay longest, then those at every fourth and every second: where checkpoints stay, what
// is walked again lies between two of them.
fn rank_of(v: usize) -> u64
    requires { v < variables }
    ensures { result < 256 }
{
    if v % 8 == 0 {
        return 255 - v as u64;
    }
    if v % 4 == 0 {
        return 191 - v as u64;
    }
    if v % 2 == 0 {
        return 127 - v as u64;
    }
    63 - v as u64
}

// An entry, in one word: from the top its rank, two ids, and the answer for them.
// Packed, and no map of structs: the memo is words of 64 bits that C lends, and no call allocates.
fn entry_of(rank: u64, x: NodeId, y: NodeId, z: NodeId) -> u64
    requires { (rank < 256) × (x.0 < ids) × (y.0 < ids) × (z.0 < ids) }
    ensures { Tells x.0 y.0 z.0 result }
{
    ((rank * IDS + x.0 as u64) * IDS + y.0 as u64) * IDS + z.0 as u64
}

// The first word of the set of a pair, which is x * 2^18 + y.
fn set_of(pair: u64, sets: usize) -> usize
    requires { (1 ≤ sets) × (sets ≤ most_nodes) }
    ensures { result + 8 ≤ sets * 8 }
{
    let h = mixed((pair / IDS % IDS) as usize, (pair % IDS) as usize, 0);
    scaled(h, sets) * MEMO_WORDS
}

// How many sets are in use.
fn sets_in(memo: &[u64]) -> usize
    requires { 1 ≤ length memo.now }
    ensures { result ≡ sets_in memo.now }
{
    (memo[0] / IDS) as usize
}

// Of the eight words from `at` on, one that is an entry of the pair, or 0. All eight are read without a branch: which of them has the pair,
// if any, no processor could learn.
// 0 and no `Option`: an empty word is 0, and `recall` tells it apart once.
fn matching(memo: &[u64], at: usize, pair: u64) -> u64
    requires { at + 8 ≤ length memo.now }
    ensures { Found memo.now pair result }
{
    let mut found = 0;
    for &w in &memo[at..at + MEMO_WORDS] {
        if w / IDS % PAIRS == pair {
            found = w;
        }
    }
    found
}

// The memo's answer for a pair, if it has one.
// The memo stays a slice, and `Framed` in the contracts: a struct for it would be made anew wherever one is lent, and say no more.
pub fn recall(memo: &[u64], x: NodeId, y: NodeId) -> Option<NodeId>
    requires { (1 ≤ length memo.now) × (length memo.now ≤ most_nodes * 8) × (Framed memo.now) × (x.0 < ids) × (y.0 < ids) }
    ensures { IfSome result (λ id. Hit memo.now x.0 y.0 id.0) }
{
    let sets = sets_in(memo);
    // Nothing was written yet.
    if sets == 0 {
        return None;
    }
    let pair = x.0 as u64 * IDS + y.0 as u64;
    let w = matching(memo, set_of(pair, sets), pair);
    if w == 0 {
        return None;
    }
    Some(NodeId((w % IDS) as u32))
}

// The word of a set that is written over: the smallest. An empty word is 0, and a rank stands in the highest bits. The head is never one.
// The least word stays in a local: without one long walks were up to 12 % slower, and `min_by_key` reads words again.
fn word_to_give(memo: &[u64], at: usize) -> usize
    requires { at + 8 ≤ length memo.now }
    ensures { (1 ≤ result) × (result < at + 8) }
{
    let first = at.max(1);
    let mut to = first;
    let mut least = memo[first];
    for i in first + 1..at + MEMO_WORDS {
        let w = memo[i];
        if w < least {
            least = w;
            to = i;
        }
    }
    to
}

// Writes an entry into the set of its pair.
fn put(memo: &mut [u64], sets: usize, entry: u64)
    requires { (1 ≤ sets) × (sets ≤ most_nodes) × (sets * 8 ≤ length memo.old) }
    ensures { Put memo.old (sets * 8) entry memo.new }
{
    let at = set_of(entry / IDS % PAIRS, sets);
    let to = word_to_give(memo, at);
    memo[to] = entry;
}

// Takes the entry of word i out, and writes it into its set of so many.
fn move_word(memo: &mut [u64], sets: usize, i: usize)
    requires { (1 ≤ i) × (i < sets * 8) × (1 ≤ sets) × (sets ≤ most_nodes) × (sets * 8 ≤ length memo.old) }
    ensures { Kept memo.old (sets * 8) memo.new }
{
    let entry = memo[i];
    if entry == 0 {
        return;
    }
    memo[i] = 0;
    put(memo, sets, entry);
}

// Moves the entries of so many sets over to four times as many: from the last word down, since a set's entries go to sets behind it.
fn spread(memo: &mut [u64], sets: usize)
    requires { (1 ≤ sets) × (sets * 4 ≤ most_nodes) × (sets * 4 * 8 ≤ length memo.old) }
    ensures { Kept memo.old (sets * 4 * 8) memo.new }
{
    for i in (1..sets * MEMO_WORDS).rev() {
        move_word(memo, sets * 4, i);
    }
}

// How many sets to begin with, of so many: a quarter, of that a quarter, and so on.
fn first_sets(most: usize) -> usize
    requires { 1 ≤ most }
    ensures { (1 ≤ result) × (result ≤ most) }
{
    let mut sets = most;
    while FIRST_SETS < sets {
        sets /= 4;
    }
    sets
}

// How many sets are in use for one answer more, which the head counts.
fn sets_for_one_more(memo: &mut [u64]) -> usize
    requires { (8 ≤ length memo.old) × (length memo.old ≤ most_nodes * 8) × (Framed memo.old) }
    ensures { Readied memo.old result memo.new }
{
    let head = memo[0];
    let sets = (head / IDS) as usize;
    if sets == 0 {
        let first = first_sets(memo.len() / MEMO_WORDS);
        memo[0] = first as u64 * IDS;
        return first;
    }
    // Two answers a set: then sets are seldom full.
    if head % IDS < sets as u64 * 2 {
        memo[0] = head + 1;
        return sets;
    }
    // All sets are in use, or all of those that four times as many can be made of.
    if memo.len() / MEMO_WORDS < sets * 4 {
        return sets;
    }
    spread(memo, sets);
    memo[0] = head + sets as u64 * 3 * IDS;
    sets * 4
}

// Writes the answer for a pair over whatever stood in its place. A pair that loses its place costs time alone: worked out again, its nodes are
// found and none is added.
pub fn remember(memo: &mut [u64], x: NodeId, y: NodeId, id: NodeId, v: usize)
    requires { (8 ≤ length memo.old) × (length memo.old ≤ most_nodes * 8) × (Framed memo.old) × (x.0 < ids) × (y.0 < ids) × (id.0 < ids) × (v < variables) }
    ensures { Noted memo.old x.0 y.0 id.0 memo.new }
{
    let sets = sets_for_one_more(memo);
    put(memo, sets, entry_of(rank_of(v), x, y, id));
}

// Every word becomes zero again; those behind the sets in use are.
pub fn clear(memo: &mut [u64])
    requires { Framed memo.old }
    ensures { memo.new ≡ replicate (length memo.old) 0 }
{
    if memo.len() == 0 {
        return;
    }
    let end = sets_in(memo) * MEMO_WORDS;
    memo[..end].fill(0);
}
