//! What it takes to stand in a ranked list.
ghost use Rattle.std.specs.Prelude.{◌≡◌, ℕ, Bool, true, false};

// A record with a rank and a number. Two records of the same rank may stand in either order; they need not be equal, so this
// is no `Ord`.
pub trait Rank: Sized {
    ghost before: { Self → Self → Bool };

    ghost numbered: { Self → ℕ };

    fn precedes(&self, other: &Self) -> bool
        ensures { result ≡ before self.now other.now };

    fn number(&self) -> u32
        ensures { result ≡ numbered self.now };

    ghost oneway: { (x y : Self) → before x y ≡ true → before y x ≡ false };

    ghost chain: { (x y z : Self) → before x y ≡ false → before y z ≡ false → before x z ≡ false };
}
