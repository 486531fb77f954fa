// Node making on a lent table. Document 01, step 4; `create_node` of the source.

#![tactic(auto)]

pub mod chain;
pub mod edges;
pub mod nodes;
pub mod room;
pub mod undo;
pub mod used;
