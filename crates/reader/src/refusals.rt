// What a refusal's number and place mean.
// By numbers and no Reason: README names these calls so, their clauses hold for every number, and 20, 21 and 24 have no Reason yet (directory.Witnesses.groups_are, meanings_are).
ghost use Rattle.std.specs.Prelude.{◌≡◌};
ghost use Rattle.directory.specs.Answers.{group_of, meaning_of};

use directory::{PlaceMeaning, RefusalGroup};

// The call that a refusal number belongs to.
#[tactic(auto, using(std::proofs::lemmas::Bool::Decides::nat_tests), unfolding(directory::specs::Answers::group_of))]
pub fn group_of(number: u8) -> RefusalGroup
    ensures { result ≡ group_of number }
{
    match number {
        0 => RefusalGroup::NoRefusal,
        1..=8 => RefusalGroup::Building,
        9..=15 => RefusalGroup::Opening,
        16 => RefusalGroup::LookingUp,
        17..=19 | 22..=23 => RefusalGroup::Sign,
        _ => RefusalGroup::NoRefusal,
    }
}

// What the place of a refusal is.
#[tactic(auto, using(std::proofs::lemmas::Bool::Decides::nat_tests), unfolding(directory::specs::Answers::meaning_of))]
pub fn meaning_of(number: u8) -> PlaceMeaning
    ensures { result ≡ meaning_of number }
{
    match number {
        0..=4 | 9 | 11 | 16 => PlaceMeaning::Nothing,
        5 | 7 => PlaceMeaning::Code,
        6 => PlaceMeaning::LengthNeeded,
        8 => PlaceMeaning::CodesLeft,
        10 => PlaceMeaning::Offset,
        12 => PlaceMeaning::Vertex,
        13 => PlaceMeaning::RankEntry,
        14..=15 => PlaceMeaning::Line,
        _ => PlaceMeaning::Nothing,
    }
}
