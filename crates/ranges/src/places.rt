// Places and positions. The rest of the kernel computes with positions, which have no sign; only crate `table` meets signed numbers again,
// where it reads cuts and places that were lent.
ghost use Rattle.std.specs.Prelude.{◌≡◌, ◌≤◌};
ghost use Rattle.ranges.specs.Line.{Place, exactly, position, top};
ghost use Rattle.ranges.specs.Ending.{place_at};

// The end places.
pub const LOWEST: i64 = -4294967297;

pub const HIGHEST: i64 = 4294967295;

// The position of place 0.
pub const ZERO: u64 = 4294967297;

// The position of the highest place.
pub const TOP: u64 = 8589934592;

// A place, counted from the lowest one.
pub fn position_of(place: i64) -> u64
    requires { Place place }
    ensures { result ≡ position place }
{
    (place - LOWEST) as u64
}

// The place at a position.
pub fn place_at(position: u64) -> i64
    requires { position ≤ top }
    ensures { result ≡ place_at position }
{
    position as i64 + LOWEST
}

// The position of the place that is exactly a key.
pub fn position_of_key(key: i32) -> u64
    ensures { result ≡ position (exactly key) }
{
    // Widened first: twice a key need not fit into an `i32`.
    (i64::from(key) * 2 - LOWEST) as u64
}
