//! Whether work that takes long is to go on.
#![tactic(auto)]

/// Who is asked, every so often, whether work that takes long is to go on.
pub trait Watch {
    ghost use Rattle.std.specs.Prelude.{Bool};

    // What may be answered.
    ghost may_say: { Self → Bool → Type 0 };

    /// Whether the work goes on. It takes no memory and waits for nobody.
    fn goes_on(&self) -> bool
        ensures { may_say self.now result };
}

/// Lets all work go on to its end.
#[derive(Clone, Copy)]
pub struct Unwatched;

impl Watch for Unwatched {
    ghost use Rattle.std.specs.Prelude.{◌≡◌, true};

    ghost may_say = { λ _ b. b ≡ true };

    fn goes_on(&self) -> bool {
        true
    }
}
