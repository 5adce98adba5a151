//! Lists of different texts, in the order in which they came.
ghost use Rattle.std.specs.Prelude.{◌≡◌, IfOk, [], ◌∷◌, length};
ghost use Rattle.std.specs.List.{list_any};
ghost use Rattle.pure_grammar.specs.Theories.Lexeme.{same};
ghost use Rattle.pure_grammar.specs.Theories.PhraseTree.{with_text};

use pure_text::Text;
use std::alloc::{AllocError, Global};
use std::collections::BTreeSet;
use std::marker::Model;
use std::mem;

/// Different texts in the order in which they came, and the set of them, by which one is found.
#[derive(Drop)]
pub(crate) struct Texts {
    list: Vec<Text>,
    known: BTreeSet<Text>,
}

impl Model for Texts {
    ghost use Rattle.std.specs.Prelude.{List, ℕ};

    ghost Value = { List (List ℕ) };

    ghost use Rattle.pure_script.specs.TextSet.{IsSetOf};

    ghost view = { λ t. t.list.items };

    ghost invariant = { λ t. IsSetOf t.known t.list.items };
}

impl Texts {
    /// No texts.
    pub(crate) fn none(alloc: Global) -> Texts
        ensures { result ≡ [] }
    {
        Texts {
            list: Vec::new(alloc),
            known: BTreeSet::new(alloc),
        }
    }

    /// With the text behind the others, unless it is there; and whether it was there.
    pub(crate) fn with(self, alloc: Global, text: Text) -> Result<(bool, Texts), AllocError>
        ensures known { IfOk result (λ r. r.0 ≡ list_any (same text) self) }
        ensures texts { IfOk result (λ r. r.1 ≡ with_text self text) }
    {
        let Texts {
            mut list,
            mut known,
        } = self;
        if !known.insert(text.copy(alloc)?)? {
            return Ok((true, Texts { list, known }));
        }
        list.push(text)?;
        Ok((false, Texts { list, known }))
    }

    /// The text comes behind the others, unless it is there; and whether it was there.
    pub(crate) fn add(&mut self, alloc: Global, text: Text) -> Result<bool, AllocError>
        ensures known { IfOk result (λ known. known ≡ list_any (same text) self.old) }
        ensures texts { IfOk result (λ _. self.new ≡ with_text self.old text) }
    {
        let texts = mem::replace(self, Texts::none(alloc));
        let (known, all) = texts.with(alloc, text)?;
        *self = all;
        Ok(known)
    }

    /// How many there are: never more than the number can say, unless memory fails.
    pub(crate) fn count(&self) -> Result<u32, AllocError>
        ensures { IfOk result (λ n. n ≡ length self.now) }
    {
        match u32::try_from(self.list.len()) {
            Ok(n) => Ok(n),
            Err(_) => Err(AllocError),
        }
    }

    /// The texts as a list.
    pub(crate) fn into_list(self) -> Vec<Text>
        ensures { result.items ≡ self }
    {
        self.list
    }
}
