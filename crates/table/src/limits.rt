// The limits of document 01, each once; `specs/Layout.antt` and crate `diagram` name the same numbers for the contracts.

// "Node room is 1 to 4,096 records, edge room 2 to 16,384."
pub const MOST_NODES: usize = 4096;

pub const MOST_EDGE_ROOM: usize = 16384;

// The words of a node record; of the index and of the memo for each node record of the room.
pub const RECORD_WORDS: usize = 4;

pub const INDEX_WORDS: usize = 4;

pub const MEMO_WORDS: usize = 8;

// "A range node has 2 to 64 edges."
pub const MOST_EDGES: usize = 64;

// Variables 0 to 31 are ranges, 32 to 63 booleans.
// By number, and no enum: a record holds its variable as a word, and variables of both kinds stand in one order.
pub const FIRST_BOOLEAN: usize = 32;

pub const VARIABLES: usize = 64;

// The lowest cut: a cut is any place but the lowest. The end places themselves are `LOWEST` and `HIGHEST` of `ranges::places`.
pub const LOWEST_CUT: i64 = -4294967296;
