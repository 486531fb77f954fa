// The cases, in lists that are each asked of one table. Some ids are not in the document: they follow from its rule of ids, which is that
// nodes are numbered in the order of making, and that a first child is never complemented.
ghost use Rattle.std.specs.Prelude.{◌<◌};

use super::questions::Question::{
    AllEdges, AllNodes, And, Between, Boolean, Compare, Disjoint, Edges, FirstCut, Narrow, Or,
    Read, Restrict, Widen,
};
use super::questions::Value::{Count, Cut, Id, Yes};
use super::questions::{A, B, C, Case, D, FALSE, TRUE, Variable, X};
use ids::NodeId;
use ranges::bounds::Bound::{Excludes, Includes, Open};
use ranges::bounds::Comparison::{Equal, GreaterEqual, LessEqual, LessThan, NotEqual};
use table::refusal::Refusal::{
    BeyondPlaces, NoRoom, NotSound, UnknownId, WrongRoom, WrongVariable,
};

// A case, where its fields need no names: its number in document 01, if it has one there, the question, and what is to come out.
macro_rules! case {
    ($of:expr, $asks:expr, $wants:expr) => {
        Case {
            of: $of,
            asks: $asks,
            wants: $wants,
        }
    };
}

// C1 to C12, C14, C15, and restriction. 10 is (x<5 and a), 11 its complement, 12 (x<5 or a). From C14 on no change adds a node. Narrowing by
// empty bounds does not commute with negation: 2 and 3 both become FALSE.
pub const FIRST: [Case; 41] = [
    case!(Some(1), Compare(X, LessThan, 5), Ok(Id(NodeId(2)))),
    case!(Some(2), Compare(X, GreaterEqual, 5), Ok(Id(NodeId(3)))),
    case!(Some(3), Compare(X, LessEqual, 5), Ok(Id(NodeId(4)))),
    case!(Some(4), And(NodeId(2), NodeId(3)), Ok(Id(FALSE))),
    case!(Some(5), And(NodeId(2), NodeId(4)), Ok(Id(NodeId(2)))),
    case!(Some(6), And(NodeId(3), NodeId(4)), Ok(Id(NodeId(7)))),
    case!(Some(7), Compare(X, Equal, 5), Ok(Id(NodeId(7)))),
    case!(Some(7), Compare(X, NotEqual, 5), Ok(Id(NodeId(6)))),
    case!(Some(8), Boolean(A), Ok(Id(NodeId(8)))),
    case!(Some(9), And(NodeId(2), NodeId(8)), Ok(Id(NodeId(10)))),
    case!(Some(10), Or(NodeId(2), NodeId(8)), Ok(Id(NodeId(12)))),
    case!(
        Some(11),
        Between(X, Excludes(1), Excludes(2)),
        Ok(Id(NodeId(15)))
    ),
    case!(Some(11), Compare(X, Equal, 1), Ok(Id(NodeId(17)))),
    case!(Some(11), Disjoint(NodeId(15), NodeId(17)), Ok(Yes(true))),
    case!(Some(11), Compare(X, Equal, 2), Ok(Id(NodeId(19)))),
    case!(Some(11), Disjoint(NodeId(15), NodeId(19)), Ok(Yes(true))),
    case!(Some(12), Read(NodeId(10), 8), Ok(Yes(true))),
    case!(Some(12), Read(NodeId(10), 10), Ok(Yes(false))),
    case!(
        Some(14),
        Narrow(NodeId(7), X, Includes(5), Includes(5)),
        Ok(Id(TRUE))
    ),
    case!(
        Some(14),
        Narrow(NodeId(2), X, Includes(3), Includes(4)),
        Ok(Id(TRUE))
    ),
    case!(
        Some(14),
        Narrow(NodeId(2), X, Includes(5), Open),
        Ok(Id(FALSE))
    ),
    case!(
        Some(14),
        Narrow(NodeId(2), X, Includes(3), Includes(7)),
        Ok(Id(NodeId(2)))
    ),
    case!(
        Some(15),
        Narrow(TRUE, X, Includes(7), Includes(3)),
        Ok(Id(TRUE))
    ),
    case!(
        Some(15),
        Narrow(NodeId(2), X, Includes(7), Includes(3)),
        Ok(Id(FALSE))
    ),
    case!(
        Some(15),
        Narrow(NodeId(8), X, Includes(7), Includes(3)),
        Ok(Id(NodeId(8)))
    ),
    case!(
        Some(15),
        Widen(TRUE, X, Includes(7), Includes(3)),
        Ok(Id(FALSE))
    ),
    case!(
        Some(15),
        Widen(NodeId(2), X, Includes(7), Includes(3)),
        Ok(Id(FALSE))
    ),
    case!(
        Some(15),
        Widen(NodeId(8), X, Includes(7), Includes(3)),
        Ok(Id(FALSE))
    ),
    case!(
        None,
        Narrow(NodeId(3), X, Includes(7), Includes(3)),
        Ok(Id(FALSE))
    ),
    case!(None, Narrow(NodeId(10), X, Open, Open), Ok(Id(NodeId(10)))),
    case!(None, Widen(NodeId(11), X, Open, Open), Ok(Id(NodeId(11)))),
    case!(
        None,
        Widen(FALSE, X, Includes(3), Includes(7)),
        Ok(Id(FALSE))
    ),
    case!(None, Restrict(NodeId(10), A, true), Ok(Id(NodeId(2)))),
    case!(None, Restrict(NodeId(10), A, false), Ok(Id(FALSE))),
    case!(None, Restrict(NodeId(11), A, true), Ok(Id(NodeId(3)))),
    case!(None, Restrict(NodeId(12), A, true), Ok(Id(TRUE))),
    case!(None, Restrict(NodeId(12), A, false), Ok(Id(NodeId(2)))),
    case!(None, Restrict(NodeId(10), B, true), Ok(Id(NodeId(10)))),
    case!(None, Restrict(NodeId(10), X, false), Ok(Id(NodeId(10)))),
    case!(None, AllNodes, Ok(Count(9))),
    case!(None, AllEdges, Ok(Count(22))),
];

// C13. 16 is (x<1: a; 1<=x<2: a and b; else FALSE).
pub const MERGED: [Case; 13] = [
    case!(Some(13), Boolean(A), Ok(Id(NodeId(2)))),
    case!(Some(13), Boolean(B), Ok(Id(NodeId(4)))),
    case!(Some(13), Compare(X, LessThan, 1), Ok(Id(NodeId(6)))),
    case!(
        Some(13),
        Between(X, Includes(1), Excludes(2)),
        Ok(Id(NodeId(9)))
    ),
    case!(Some(13), And(NodeId(2), NodeId(4)), Ok(Id(NodeId(10)))),
    case!(Some(13), And(NodeId(6), NodeId(2)), Ok(Id(NodeId(12)))),
    case!(Some(13), And(NodeId(9), NodeId(10)), Ok(Id(NodeId(15)))),
    case!(Some(13), Or(NodeId(12), NodeId(15)), Ok(Id(NodeId(16)))),
    case!(Some(13), And(NodeId(16), NodeId(4)), Ok(Id(NodeId(18)))),
    case!(None, Edges(NodeId(16)), Ok(Count(3))),
    case!(None, FirstCut(NodeId(16)), Ok(Cut(2))),
    case!(Some(13), Edges(NodeId(18)), Ok(Count(2))),
    case!(Some(13), FirstCut(NodeId(18)), Ok(Cut(4))),
];

// a widened by x in [3,7], which is to stay in the order of variables. The source puts x below a here, and then says that 5 and x<3 are not
// disjoint. 9 is x in [3,7], a node that widening does not make.
pub const WIDENED: [Case; 6] = [
    case!(None, Boolean(A), Ok(Id(NodeId(2)))),
    case!(
        None,
        Widen(NodeId(2), X, Includes(3), Includes(7)),
        Ok(Id(NodeId(5)))
    ),
    case!(None, AllNodes, Ok(Count(2))),
    case!(None, Compare(X, LessThan, 3), Ok(Id(NodeId(6)))),
    case!(None, Disjoint(NodeId(5), NodeId(6)), Ok(Yes(true))),
    case!(
        None,
        Between(X, Includes(3), Includes(7)),
        Ok(Id(NodeId(9)))
    ),
];

// A restriction that makes nodes below both edges of a boolean node: the low ones first. 20 is (b and c and d, if a; else b or c and d).
// With d, below its low edge (b or c) is made first, and then below its high one (b and c).
pub const RESTRICTED: [Case; 15] = [
    case!(None, Boolean(A), Ok(Id(NodeId(2)))),
    case!(None, Boolean(B), Ok(Id(NodeId(4)))),
    case!(None, Boolean(C), Ok(Id(NodeId(6)))),
    case!(None, Boolean(D), Ok(Id(NodeId(8)))),
    case!(None, And(NodeId(6), NodeId(8)), Ok(Id(NodeId(10)))),
    case!(None, And(NodeId(4), NodeId(10)), Ok(Id(NodeId(12)))),
    case!(None, Or(NodeId(4), NodeId(10)), Ok(Id(NodeId(14)))),
    case!(None, And(NodeId(2), NodeId(12)), Ok(Id(NodeId(16)))),
    case!(None, And(NodeId(3), NodeId(14)), Ok(Id(NodeId(19)))),
    case!(None, Or(NodeId(16), NodeId(19)), Ok(Id(NodeId(20)))),
    case!(None, Restrict(NodeId(20), D, true), Ok(Id(NodeId(26)))),
    case!(None, Or(NodeId(4), NodeId(6)), Ok(Id(NodeId(22)))),
    case!(None, And(NodeId(4), NodeId(6)), Ok(Id(NodeId(24)))),
    case!(None, AllNodes, Ok(Count(13))),
    case!(None, AllEdges, Ok(Count(26))),
];

// C16: what fills a table with room for four nodes.
pub const FILLS: [Case; 6] = [
    case!(None, Compare(X, LessThan, 5), Ok(Id(NodeId(2)))),
    case!(None, Compare(X, LessEqual, 5), Ok(Id(NodeId(4)))),
    case!(None, Compare(X, Equal, 5), Ok(Id(NodeId(7)))),
    case!(None, Boolean(A), Ok(Id(NodeId(8)))),
    case!(Some(16), And(NodeId(2), NodeId(4)), Ok(Id(NodeId(2)))),
    case!(
        None,
        Narrow(NodeId(7), X, Includes(5), Open),
        Ok(Id(NodeId(4)))
    ),
];

// C16: what that table refuses then.
pub const OVERFILLS: [Case; 5] = [
    case!(Some(16), Compare(X, LessThan, 6), Err(NoRoom)),
    case!(Some(16), Boolean(B), Err(NoRoom)),
    case!(Some(16), And(NodeId(2), NodeId(8)), Err(NoRoom)),
    case!(
        None,
        Widen(NodeId(8), X, Includes(3), Includes(7)),
        Err(NoRoom)
    ),
    case!(None, Widen(NodeId(2), X, Includes(0), Open), Err(NoRoom)),
];

// C16: the largest room, and one node more.
pub const LARGEST: [Case; 1] = [case!(Some(16), Boolean(A), Ok(Id(NodeId(2))))];

pub const OVERSIZED: [Case; 1] = [case!(Some(16), Boolean(A), Err(WrongRoom))];

// How many questions `sixty` has.
pub const SIXTY_MAKES: u32 = 64;

// The id of node n of the table that `sixty` makes. The nodes that x<0 is part of hold at the lowest place, so that they are not complemented.
fn sixty_id(n: u32) -> NodeId
    requires { n < 64 }
{
    match n {
        0 | 32 | 48 | 56 | 60 | 62 => NodeId(n * 2 + 2),
        _ => NodeId(n * 2 + 3),
    }
}

// C16: question n of those that make x<0 or x=2 or x=4 and so on to x=62, which has 64 edges: the 32 conditions; then what comes out is joined
// two by two, so that the last has all of them in it; then x>=100.
pub fn sixty(n: u32) -> Case
    requires { n < 64 }
{
    let asks = match n {
        0 => Compare(X, LessThan, 0),
        1..32 => Compare(X, Equal, (n * 2) as i32),
        32..63 => {
            let pair = (n - 32) * 2;
            Or(sixty_id(pair), sixty_id(pair + 1))
        }
        _ => Compare(X, GreaterEqual, 100),
    };
    case!(None, asks, Ok(Id(sixty_id(n))))
}

// C16: what those make. 126 has 64 edges, and there is no room for a 65th.
pub const SIXTY: [Case; 7] = [
    case!(Some(16), Edges(NodeId(126)), Ok(Count(64))),
    case!(None, AllNodes, Ok(Count(64))),
    case!(None, AllEdges, Ok(Count(443))),
    case!(Some(16), Or(NodeId(126), NodeId(129)), Err(NoRoom)),
    case!(None, Widen(NodeId(126), X, Includes(-5), Open), Err(NoRoom)),
    case!(
        None,
        Narrow(NodeId(126), X, Includes(1), Open),
        Ok(Id(NodeId(131)))
    ),
    case!(None, Edges(NodeId(131)), Ok(Count(63))),
];

// C16: the last variable and the last place.
pub const LAST: [Case; 4] = [
    case!(Some(16), Boolean(Variable(63)), Ok(Id(NodeId(2)))),
    case!(None, Compare(Variable(31), LessThan, 5), Ok(Id(NodeId(4)))),
    case!(Some(16), Compare(X, LessThan, 5), Ok(Id(NodeId(6)))),
    case!(Some(16), Read(NodeId(7), 4294967295), Ok(Yes(true))),
];

// C16: what lies beyond the last variable and the last place.
pub const TOO_FAR: [Case; 12] = [
    case!(Some(16), Boolean(Variable(64)), Err(WrongVariable)),
    case!(None, Boolean(Variable(31)), Err(WrongVariable)),
    case!(None, Compare(A, LessThan, 5), Err(WrongVariable)),
    case!(Some(16), Read(NodeId(7), 4294967296), Err(BeyondPlaces)),
    case!(None, And(TRUE, NodeId(8)), Err(UnknownId)),
    case!(None, Disjoint(FALSE, NodeId(8)), Err(UnknownId)),
    case!(None, Restrict(TRUE, Variable(64), true), Err(WrongVariable)),
    case!(
        None,
        Restrict(NodeId(8), Variable(64), true),
        Err(UnknownId)
    ),
    case!(
        None,
        Narrow(TRUE, Variable(40), Includes(3), Includes(7)),
        Err(WrongVariable)
    ),
    case!(None, Narrow(NodeId(2), A, Open, Open), Err(WrongVariable)),
    case!(
        None,
        Widen(NodeId(8), Variable(64), Includes(7), Includes(3)),
        Err(UnknownId)
    ),
    case!(
        None,
        Widen(FALSE, Variable(63), Includes(7), Includes(3)),
        Err(WrongVariable)
    ),
];

// A condition.
pub const SOME: [Case; 1] = [case!(None, Boolean(A), Ok(Id(NodeId(2))))];

// Refusals that go before a shortcut: in a table that is not sound.
pub const DAMAGED: [Case; 5] = [
    case!(None, And(TRUE, NodeId(2)), Err(NotSound)),
    case!(None, And(TRUE, NodeId(8)), Err(NotSound)),
    case!(None, Boolean(Variable(64)), Err(NotSound)),
    case!(None, Restrict(NodeId(8), Variable(64), true), Err(NotSound)),
    case!(None, Widen(TRUE, X, Open, Open), Err(NotSound)),
];

// Refusals that go before a shortcut: with a memo of a length that is refused.
pub const OTHER_MEMO: [Case; 7] = [
    case!(None, Boolean(A), Ok(Id(NodeId(2)))),
    case!(None, And(TRUE, NodeId(2)), Err(WrongRoom)),
    case!(None, And(TRUE, NodeId(8)), Err(WrongRoom)),
    case!(None, Or(NodeId(2), FALSE), Err(WrongRoom)),
    case!(None, Restrict(NodeId(2), X, true), Err(WrongRoom)),
    case!(None, Narrow(TRUE, X, Open, Open), Err(WrongRoom)),
    case!(None, Widen(TRUE, X, Open, Open), Err(WrongRoom)),
];
