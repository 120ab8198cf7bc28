//! What is told of an expression's parts, where it is known how many there are.
ghost use Rattle.std.specs.Prelude.{◌≡◌, ◌≤◌, ◌∷◌, [], length, option_to_list};

/// The only one of these.
pub fn the_only<T: Drop>(mut parts: Vec<T>) -> T
    requires { length parts.items ≡ 1 }
    ensures { parts.items ≡ result ∷ [] }
{
    parts.pop().unwrap()
}

/// The only one of these, if there is one.
pub fn at_most_one<T: Drop>(parts: Vec<T>) -> Option<T>
    requires { length parts.items ≤ 1 }
    ensures { parts.items ≡ option_to_list result }
{
    if parts.is_empty() {
        None
    } else {
        Some(the_only(parts))
    }
}

/// The two of these.
pub fn both<T: Drop>(mut parts: Vec<T>) -> (T, T)
    requires { length parts.items ≡ 2 }
    ensures { parts.items ≡ result.0 ∷ result.1 ∷ [] }
{
    let right = parts.pop().unwrap();
    let left = parts.pop().unwrap();
    (left, right)
}
