// What every refusal has: the number that the rules give it, and its place.
ghost use Rattle.std.specs.Prelude.{◌≡◌, ℕ, false, eqb};

pub trait Refusal {
    ghost number_is: { Self → ℕ };

    ghost place_is: { Self → ℕ };

    // The number of the refusal.
    fn number(self) -> usize
        ensures { result ≡ number_is self };

    // Its place: a line, an offset, or 0.
    fn place(self) -> usize
        ensures { result ≡ place_is self };

    // No refusal has the number 0, which says that a call is accepted.
    ghost never_0: { (e : Self) → eqb (number_is e) 0 ≡ false };
}
