//! Lemmas of the tests.
use pure_promise_fates::Reported;
use pure_typ::Label;

/// A lemma, with what became of it as a number: 0 where it is shown, 1 where its proof is at fault, and else cancelled.
#[derive(Drop)]
pub(crate) struct Lemma {
    pub(crate) label: Label,
    pub(crate) own: u32,
    pub(crate) rests: Vec<Label>,
}

impl Reported for Lemma {
    ghost use Rattle.pure_promise_fates_rows.specs.Given.{seen_lemma};

    ghost entry = { seen_lemma };

    fn label(&self) -> Label {
        self.label
    }

    fn rests(&self) -> Option<&[Label]> {
        match self.own {
            0 => Some(self.rests.as_slice()),
            _ => None,
        }
    }

    fn is_fault(&self) -> bool {
        self.own == 1
    }
}
