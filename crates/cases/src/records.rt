// The used words of a table.
use ids::NodeId;
use std::io;
use table::lent::Table;

// The record of the node that an id names: its variable, its number of edges, the number of the first of them, a spare.
pub fn record<'a>(table: &Table<'a>, id: NodeId) -> Option<&'a [u32; 4]> {
    let (records, _) = table.nodes.as_chunks::<4>();
    // Half an id is one more than its node's number.
    let node = (id.0 / 2).checked_sub(1)?;
    records.get(node as usize)
}

// The first `used` nodes: the four words of each, the children of its edges, and their cuts.
pub fn show_nodes(rt: &impl Print, table: &Table, used: usize) -> io::Result<()> {
    let (records, _) = table.nodes.as_chunks::<4>();
    for (n, record) in records.iter().take(used).enumerate() {
        print!(rt; "    node {n}:")?;
        for word in record {
            print!(rt; " {word}")?;
        }
        let [_, count, first, _] = record.map(|word| word as usize);
        print!(rt; ", children")?;
        for child in table.children.iter().skip(first).take(count) {
            print!(rt; " {child}")?;
        }
        print!(rt; ", cuts")?;
        for cut in table.cuts.iter().skip(first).take(count) {
            print!(rt; " {cut}")?;
        }
        println!(rt)?;
    }
    Ok(())
}
