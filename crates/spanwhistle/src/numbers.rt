// Numbers of C for what Rattle has types for. Every number has a meaning, so none needs a refusal: document 01 has none for it.
ghost use Rattle.std.specs.Prelude.{◌≡◌};
ghost use Rattle.spanwhistle.specs.Numbers.{bound_of, word_of};
ghost use Rattle.table.specs.Told.{number_in, yes_in};
ghost use Rattle.kernel.specs.Answering.{id_in};

use ids::NodeId;
use ranges::bounds::Bound;
use table::refusal::Refusal;

// A bound by its kind and its key: 0 is open, whatever the key; 1 includes the key; every other number excludes it.
// No `From`: the two numbers of a pair would have no names.
pub fn bound_of(kind: u32, key: i32) -> Bound
    ensures { result ≡ bound_of kind key }
{
    match kind {
        0 => Bound::Open,
        1 => Bound::Includes(key),
        // 2 and all above it: document 01 has no refusal for a kind that does not exist, so every number is one.
        _ => Bound::Excludes(key),
    }
}

// 1 for yes and 0 for no.
pub fn word_of(yes: bool) -> u32
    ensures { result ≡ word_of yes }
{
    u32::from(yes)
}

// The number of an answer, which is returned: 0, or that of its refusal.
pub fn number_of<T>(answer: &Result<T, Refusal>) -> u32
    ensures { result ≡ number_in answer.now }
{
    match answer {
        Ok(_) => 0,
        Err(e) => e.number(),
    }
}

// Writes the id of an answer, which is 1 beside every refusal, and answers its number.
pub fn hand_id(answer: Result<NodeId, Refusal>, id: &mut u32) -> u32
    ensures number { result ≡ number_in answer }
    ensures id { id.new ≡ id_in answer }
{
    *id = answer.unwrap_or(NodeId::FALSE).0;
    number_of(&answer)
}

// Writes 1 for yes, and 0 for no and beside every refusal, and answers the number.
pub fn hand_yes(answer: Result<bool, Refusal>, yes: &mut u32) -> u32
    ensures number { result ≡ number_in answer }
    ensures word { yes.new ≡ word_of (yes_in answer) }
{
    *yes = word_of(answer.unwrap_or(false));
    number_of(&answer)
}
