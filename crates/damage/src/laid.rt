// The index of one record or two, from docs/LAYOUT.md and whatever the records hold. With the index right again, a changed word is refused by
// the rule that it breaks, or not at all; the hash would else refuse nearly every one.
use super::tables::LOWEST;
use std::iter::{Skip, Take, Zip};
use std::slice::Iter;

// With room for two there are two buckets, and the hashes of the second begin here.
const SECOND: u32 = 2147483648;

// A record: its variable, its number of edges, the number of the first of them, a spare.
pub type Record = [u32; 4];

// What an index is laid from.
#[derive(Clone, Copy)]
pub struct Records<'a> {
    pub nodes: &'a [u32],
    pub children: &'a [u32],
    pub cuts: &'a [i64],
}

// One edge mixed into a hash, which is a number modulo 2^32 and so meant to wrap. The position of a cut is its distance from the lowest place.
fn mixed(hash: u32, child: u32, cut: i64) -> u32 {
    let position = cut.wrapping_sub(LOWEST).cast_unsigned() & 0xffff_ffff;
    hash.wrapping_mul(1640531527)
        .wrapping_add(child.wrapping_mul(805459861))
        .wrapping_add(position as u32)
}

impl<'a> Records<'a> {
    pub fn new(nodes: &'a [u32], children: &'a [u32], cuts: &'a [i64]) -> Self {
        Records {
            nodes,
            children,
            cuts,
        }
    }

    // The child and the cut of each edge of a record, as far as there are so many.
    fn edges(self, record: &Record) -> Take<Skip<Zip<Iter<'a, u32>, Iter<'a, i64>>>> {
        let [_, count, first, _] = *record;
        self.children
            .iter()
            .zip(self.cuts.iter())
            .skip(first as usize)
            .take(count as usize)
    }

    fn hash(self, record: &Record) -> u32 {
        let mut hash = record[0];
        for (child, cut) in self.edges(record) {
            hash = mixed(hash, *child, *cut);
        }
        hash
    }

    // Whether the first of two records comes before the second, or is the same: by hash, variable and number of edges, then by child and cut of
    // each edge.
    fn leads(self, first: &Record, second: &Record) -> bool {
        let a = (self.hash(first), first[0], first[1]);
        let b = (self.hash(second), second[0], second[1]);
        if a != b {
            return a < b;
        }
        self.edges(first).le(self.edges(second))
    }

    // The index of a table with room for one record or two, all used. Any other keeps its index.
    pub fn lay(self, index: &mut [u32]) {
        let (records, _) = self.nodes.as_chunks::<4>();
        match (records, index.len()) {
            ([only], 4) => index.copy_from_slice(&index_of_one(self.hash(only))),
            ([first, second], 8) => {
                let leads = self.leads(first, second);
                index.copy_from_slice(&self.index_in_order(first, second, leads));
            }
            _ => {}
        }
    }

    // The index of two records, in an order that may be wrong.
    pub fn index_in_order(self, first: &Record, second: &Record, leads: bool) -> [u32; 8] {
        index_of_two(self.hash(first), self.hash(second), leads)
    }
}

// One record: it is the first of the one bucket, and nothing is beside it.
fn index_of_one(hash: u32) -> [u32; 4] {
    [1, 0, 0, hash]
}

// Two records, the first of them before the second or behind it: the first node of each bucket, then for each node the next, the one before it,
// and its hash. Nodes are named by one more than their number.
fn index_of_two(hash: u32, other: u32, leads: bool) -> [u32; 8] {
    let low = hash < SECOND;
    if low == (other < SECOND) {
        // One bucket has both.
        let (first, [next, other_next], [before, other_before]) = if leads {
            (1, [2, 0], [0, 1])
        } else {
            (2, [0, 1], [2, 0])
        };
        let [bucket, other_bucket] = if low { [first, 0] } else { [0, first] };
        return [
            bucket,
            other_bucket,
            next,
            other_next,
            before,
            other_before,
            hash,
            other,
        ];
    }
    let [bucket, other_bucket] = if low { [1, 2] } else { [2, 1] };
    [bucket, other_bucket, 0, 0, 0, 0, hash, other]
}
