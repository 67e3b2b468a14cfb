//! What can be done part by part.
ghost use Rattle.std.specs.Prelude.{ℕ};

/// Work that lies on places from 0 on and can be done part by part. Where a part ends can be told
/// before it is done.
pub trait Work {
    /// What is made of a part.
    type Made;

    // Holds of work that can be done.
    ghost ready: { Self → Type 0 };

    // Holds where a part that starts at the first place may end at the second.
    ghost ends: { Self → ℕ → ℕ → Type 0 };

    // Holds of what may be made of the part between two places.
    ghost makes: { Self → ℕ → ℕ → Self.Made → Type 0 };

    /// Where the part that starts at a place ends.
    fn end_of(&self, start: u64) -> u64
        requires { ready self.now }
        ensures { ends self.now start result };

    /// What is made of the part between two places.
    fn make(&self, start: u64, end: u64) -> Self::Made
        requires ready { ready self.now }
        requires end { ends self.now start end }
        ensures { makes self.now start end result };
}
