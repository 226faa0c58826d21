//! The key of houses, a distinct number for each value of them, under the names that callers know.
ghost use Rattle.std.specs.Prelude.{◌≡◌, ◌↔◌, IsSome, IfSome, Some};
ghost use Rattle.kalah_rules.specs.{Position.{HousesState, AreWithinLimits}, Key.{key_of, IsKey}};

use kalah_rules::Houses;

/// Returns the key of the houses: `Houses::key`, with its layout. Two values of houses have the same key exactly when they are equal.
pub fn pack(houses: &Houses) -> u64
    ensures key { result ≡ key_of houses.now }
    ensures limits { AreWithinLimits houses.now }
{
    houses.key()
}

/// Returns the houses of a key: `Houses::of_key`. Returns `None` exactly when the number is no key.
pub fn unpack(key: u64) -> Option<Houses>
    ensures valid { IsSome result ↔ IsKey key }
    ensures same { IfSome result (λ a. key_of a ≡ key) }
    ensures found { (a : HousesState) → AreWithinLimits a → key_of a ≡ key → result ≡ Some a }
{
    Houses::of_key(key)
}

#[cfg(test)]
pub(crate) mod tests;
