ghost use Rattle.std.specs.Prelude.{◌≡◌, ◌<◌, ◌≤◌, ℕ, Bool, IsTrue};

/// A kind of bytes. Each of its values has a place of its own in a word.
pub trait Kind: Copy {
    /// The values of the kind.
    ghost is_value: { ℕ → Bool };

    /// The place of each.
    ghost place: { ℕ → ℕ };

    /// The value at each place.
    ghost value_at: { ℕ → ℕ };

    /// So many places there are.
    ghost places: { ℕ };

    fn is_value(value: u8) -> bool
        ensures { result ≡ is_value value };

    fn place(value: u8) -> u8
        requires { IsTrue (is_value value) }
        ensures at { result ≡ place value }
        ensures below { result < places };

    /// A word has them.
    ghost few: { places ≤ 64 };

    /// The values are bytes.
    ghost small: { (v : ℕ) → IsTrue (is_value v) → v < 256 };

    /// A value is the one at its place.
    ghost back: { (v : ℕ) → IsTrue (is_value v) → value_at (place v) ≡ v };

    /// There is a value at each place.
    ghost valid: { (n : ℕ) → n < places → IsTrue (is_value (value_at n)) };

    /// It is the place of that value.
    ghost kept: { (n : ℕ) → n < places → place (value_at n) ≡ n };
}

/// A kind whose sets say which values there may be: more of them say less.
pub trait Choice: Kind {}
