// The beginning of a list that is lent: its first so many entries, and all of them where there are fewer.
#![tactic(auto)]

ghost use Rattle.std.specs.Prelude.{◌≡◌, take};

pub fn first<T>(items: &[T], count: usize) -> &[T]
    ensures { result.now ≡ take count items.now }
{
    items.get(..count).unwrap_or(items)
}
