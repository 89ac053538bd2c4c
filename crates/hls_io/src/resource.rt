//! A resource in slices.

ghost use Rattle.std.specs.Prelude.{◌≡◌, ◌<◌, ◌^◌, ℕ, List, [], length, get_or};

/// A resource whose bytes are in slices, one after another. A slice may be empty.
pub trait Resource {
    /// Its slices; the resource's bytes are their concatenation.
    ghost slices: { Self → List (List ℕ) };

    /// The bytes of slice `number`, from 0. Empty if there is no such slice.
    fn slice(&self, number: u64) -> &[u8]
        ensures bytes { result.now ≡ get_or (slices self.now) number [] }
        ensures few { length (slices self.now) < 2 ^ 64 };
}
