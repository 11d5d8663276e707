// Levels in millimetres: their range.
ghost use Rattle.std.specs.Prelude.{◌≡◌};
ghost use Rattle.sign.specs.Levels.{in_range};

pub const LOWEST_LEVEL: i32 = -20_000;

pub const HIGHEST_LEVEL: i32 = 20_000;

// Whether it is a level that a report may bring.
#[tactic(auto, unfolding(crate::specs::Levels::in_range))]
pub(crate) fn in_range(level: i32) -> bool
    ensures { result ≡ in_range level }
{
    (LOWEST_LEVEL..=HIGHEST_LEVEL).contains(&level)
}
