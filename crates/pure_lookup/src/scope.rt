//! A name space of a content, as look-ups ask it.
use pure_typ::Name;

/// One name space of a content.
pub trait Scope {
    ghost use Rattle.std.specs.Prelude.{◌↔◌, IsTrue};
    ghost use Rattle.pure_logic.specs.Content.{Content};
    ghost use Rattle.pure_lookup.specs.Meaning.{Space, IsDeclaredIn};
    ghost use Rattle.pure_lookup.specs.Places.{IsIndexOf};

    // The content.
    ghost content: { Self → Content };

    // The name space.
    ghost space: { Self → Space };

    /// Whether the name is declared in the name space.
    fn is_declared(&self, name: Name) -> bool
        ensures { IsTrue result ↔ IsDeclaredIn (space self.now) (content self.now).declarations name };

    /// The index of the content's own theory, or of its ancestor, with this name.
    fn index_of(&self, theory: Name) -> Option<u32>
        ensures { IsIndexOf (content self.now) theory result };
}
