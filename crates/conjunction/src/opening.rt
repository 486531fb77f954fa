// What two ids alone decide: the source's opening tests, in its order.
ghost use Rattle.std.specs.Prelude.{◌≡◌, MatchOption};
ghost use Rattle.std.proofs.Math.Option.{some, none};
ghost use Rattle.algebra.specs.Conjunction.{opening};

use ids::NodeId;
use views::opposed;

// x is TRUE, y is TRUE, they are equal, one is FALSE or they are opposite.
pub fn opened(x: NodeId, y: NodeId) -> Option<NodeId>
    ensures { MatchOption result (opening x.0 y.0 ≡ none) (λ id. opening x.0 y.0 ≡ some id.0) }
{
    // The source's order, but another would do: where two of the tests hold, they answer the same.
    if x.is_true() {
        return Some(y);
    }
    if y.is_true() || x == y {
        return Some(x);
    }
    if opposed(x, y) {
        return Some(NodeId::FALSE);
    }
    None
}
