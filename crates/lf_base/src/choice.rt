//! What two answers say together.
ghost use Rattle.std.specs.Prelude.{◌≡◌, ◌||◌, ◌&&◌};

/// Whether one of them is true. Both are there already, so that a loop goes on with one value and not on two ways.
pub fn either(a: bool, b: bool) -> bool
    ensures { result ≡ (a || b) }
{
    a || b
}

/// Whether both are true.
pub fn both(a: bool, b: bool) -> bool
    ensures { result ≡ (a && b) }
{
    a && b
}
