//! Slices.

ghost use Rattle.std.specs.Prelude.{◌≡◌, drop};

/// All but the first.
pub fn behind_one<T>(all: &[T]) -> &[T]
    ensures { result.now ≡ drop 1 all.now }
{
    match all {
        [] => &[],
        [_, rest @ ..] => rest,
    }
}
