// No room for an answer.
ghost use Rattle.std.specs.Prelude.{◌≡◌};
ghost use Rattle.table.specs.declared.refusal.Refusal.TheVariants as refusal;

use table::refusal::Refusal;

// "No sound table that continues this one within its room, and the 64 edges a node, holds the answer."
#[derive(Clone, Copy)]
pub struct NoRoom;

impl From<NoRoom> for Refusal {
    ghost from_gives = { λ _ e. e ≡ refusal.NoRoom };

    fn from(_no: NoRoom) -> Refusal {
        Refusal::NoRoom
    }
}
