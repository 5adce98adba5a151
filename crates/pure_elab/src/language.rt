//! What elaboration asks of a theory and of a session's names.
use pure_order::Order;
use pure_typ::{Name, Typ};

/// A theory with a session's names: what written names mean in it, and what is declared under names. No call takes memory.
pub trait Language {
    ghost use Rattle.std.specs.Prelude.{◌≡◌, option_map};
    ghost use Rattle.pure_elab.specs.Vocabulary.{Vocabulary};

    // The vocabulary.
    ghost vocabulary: { Self → Vocabulary };

    /// The class that is written so; none exactly where the written name means no class.
    fn find_class(&self, written: &[u8]) -> Option<Name>
        ensures { result ≡ (vocabulary self.now).class_written written.now };

    /// The type constructor that is written so; none exactly where the written name means none.
    fn find_typ(&self, written: &[u8]) -> Option<Name>
        ensures { result ≡ (vocabulary self.now).constructor_written written.now };

    /// The constant that is written so; none exactly where the written name means none.
    fn find_const(&self, written: &[u8]) -> Option<Name>
        ensures { result ≡ (vocabulary self.now).constant_written written.now };

    /// The name with this text; none exactly where no name has it.
    fn find_name(&self, text: &[u8]) -> Option<Name>
        ensures { result ≡ (vocabulary self.now).name_written text.now };

    /// How many arguments the type constructor takes; none exactly where it isn't declared.
    fn typ_params(&self, name: Name) -> Option<u32>
        ensures { result ≡ (vocabulary self.now).params name };

    /// The declared type of the constant; none exactly where it isn't declared.
    fn const_typ(&self, name: Name) -> Option<&Typ>
        ensures { option_map (λ t. t.now) result ≡ (vocabulary self.now).typ_declared name };

    /// The classes and arities.
    fn order(&self) -> &Order
        ensures { result.now ≡ (vocabulary self.now).algebra };

    /// The first number that is the name of no text.
    fn first_fresh(&self) -> u32
        ensures { result ≡ (vocabulary self.now).fresh };
}
