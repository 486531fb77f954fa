// Why a call is refused. Document 01, "When the kernel is told no", has a number for each, and `specs/Told.antt` the same for the contracts.
ghost use Rattle.std.specs.Prelude.{◌≡◌};
ghost use Rattle.table.specs.Told.{number_of};

#[derive(Clone, Copy, PartialEq, Eq)]
pub enum Refusal {
    // A room or a length is not allowed.
    WrongRoom,
    // The table is not sound.
    NotSound,
    // An id is no terminal and names no used node.
    UnknownId,
    // "A variable is 64 or more, or of the wrong kind where a kind is asked."
    WrongVariable,
    // A reading lies beyond the end places.
    BeyondPlaces,
    // "No sound table that continues this one within its room, and the 64 edges a node, holds the answer."
    NoRoom,
}

impl Refusal {
    // The number of document 01; 0 is "done", and no refusal.
    // A method and no `From`: at a call the name says which number it is.
    pub fn number(self) -> u32
        ensures { result ≡ number_of self }
    {
        match self {
            Refusal::WrongRoom => 1,
            Refusal::NotSound => 2,
            Refusal::UnknownId => 3,
            Refusal::WrongVariable => 4,
            Refusal::BeyondPlaces => 5,
            Refusal::NoRoom => 6,
        }
    }
}
