// Where conditions are kept: the kernel's table, and the memo of its `and` and `or`.
use ids::NodeId;
use kernel::conditions_calls::{from_bool, from_comparison};
use kernel::joins_calls;
use ranges::bounds::Comparison;
use table::calls::{check, fresh};
use table::lent::{TableMut, Used};
use table::refusal::Refusal;

#[derive(Drop)]
pub struct Store<'a> {
    pub table: TableMut<'a>,
    pub memo: &'a mut [u64],
}

impl Store<'_> {
    // The condition that measure v compares so with a key.
    pub fn comparison(&mut self, v: u32, op: Comparison, key: i32) -> Result<NodeId, Refusal> {
        from_comparison(&mut self.table, v, op, key)
    }

    // The condition that switch v is on.
    pub fn switch(&mut self, v: u32) -> Result<NodeId, Refusal> {
        from_bool(&mut self.table, v)
    }

    pub fn and(&mut self, x: NodeId, y: NodeId) -> Result<NodeId, Refusal> {
        joins_calls::and(&mut self.table, self.memo, x, y)
    }

    pub fn or(&mut self, x: NodeId, y: NodeId) -> Result<NodeId, Refusal> {
        joins_calls::or(&mut self.table, self.memo, x, y)
    }

    // How much of the table is in use. The kernel cannot refuse: the table is the program's own.
    pub fn used(&self) -> Used {
        check(&self.table.read()).unwrap_or(Used { nodes: 0, edges: 0 })
    }

    // Makes the table empty: ids that were made in it name nothing any more. What the memo holds is never believed.
    pub fn empty(&mut self) {
        let _ = fresh(&mut self.table);
    }
}
