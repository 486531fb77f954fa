// The step of the edge merge, and the edge of a boolean variable.
ghost use Rattle.std.specs.Prelude.{◌≡◌, true, cond, ◌-◌, ◌≤◌};
ghost use Rattle.walks.specs.Walking.{Advances, goes, step_in};

use making::room::NoRoom;
use std::cmp::Ordering;
use table::limits::MOST_EDGES;
use views::END;

// How the merge goes on after one overlap: the slot and the cut of its edge, how far each side goes, and whether there is more.
// `more` is a flag of its own: slot and cut are wanted at the last step too, so there is nothing for an `Option` to leave out.
#[derive(Clone, Copy)]
pub struct Step {
    pub more: bool,
    pub slot: usize,
    pub cut: usize,
    pub left: usize,
    pub right: usize,
}

// One overlap, of edges up to the cuts k and l, its own edge going into a slot. A 65th slot there is not.
pub fn advance(slot: usize, k: usize, l: usize) -> Result<Step, NoRoom>
    ensures { let s = step_in result in Advances true slot k l (goes result) s.more s.slot s.cut s.left s.right }
{
    // Exact, though the merge is not done: edges are merged as they come, so their number never falls.
    if MOST_EDGES <= slot {
        return Err(NoRoom);
    }
    // The nearer cut ends the overlap, and its side goes on; the edge of the other side reaches into the next overlap. Where both edges end,
    // both go on: END is the cut of last edges alone, so there both sides are through.
    match k.cmp(&l) {
        Ordering::Less => Ok(Step {
            more: true,
            slot,
            cut: k,
            left: 1,
            right: 0,
        }),
        Ordering::Greater => Ok(Step {
            more: true,
            slot,
            cut: l,
            left: 0,
            right: 1,
        }),
        Ordering::Equal => Ok(Step {
            more: k < END,
            slot,
            cut: k,
            left: 1,
            right: 1,
        }),
    }
}

// The edge of a boolean variable: high is the first, low the last. An id that does not test it has one edge for both.
pub fn edge_of(count: usize, low: bool) -> usize
    requires { 1 ≤ count }
    ensures { result ≡ cond low (count - 1) 0 }
{
    if low { count - 1 } else { 0 }
}
