//! What the program is asked to do.
ghost use Rattle.std.specs.Prelude.{◌≡◌};

use pure_text::Text;
use std::marker::Model;

/// A group of proofs, by its name, which is cancelled when `after` proofs have been kept.
#[derive(Debug, Drop)]
pub struct CancelWord {
    pub group: Text,
    pub after: u32,
}

/// Cancellations in the order in which they stand among the words. Contracts see the list.
#[derive(Debug, Drop)]
pub struct Cancels {
    list: Vec<CancelWord>,
}

impl Model for Cancels {
    ghost use Rattle.std.specs.Prelude.{List};
    ghost use Rattle.std.specs.Coded.{coded_list};
    ghost use Rattle.pure_words.specs.declared.job.CancelWord.{CancelWord};
    ghost use Rattle.pure_words.specs.Codes.{coded_cancel};

    ghost Value = { List CancelWord };

    ghost coded = { coded_list coded_cancel };

    ghost view = { λ c. c.list.items };
}

impl Cancels {
    /// These cancellations. Takes no memory.
    pub fn make(list: Vec<CancelWord>) -> Cancels
        ensures { result ≡ list.items }
    {
        Cancels { list }
    }

    /// The cancellations.
    pub fn list(&self) -> &[CancelWord]
        ensures { result.now ≡ self.now }
    {
        self.list.as_slice()
    }

    /// The list itself. Takes no memory.
    pub fn into_list(self) -> Vec<CancelWord>
        ensures { result.items ≡ self }
    {
        self.list
    }
}

/// A command with the values of its options and arguments.
#[derive(Debug, Drop)]
pub enum Job {
    /// Check the theories of the directory.
    Check {
        workers: u32,
        fail_fast: bool,
        cancels: Cancels,
    },
    /// Check a library that is made from a number.
    Generate {
        workers: u32,
        start: u32,
        theories: u32,
        lemmas: u32,
    },
    /// Check the theories of the directory, and say of each row where its command stands.
    Places {
        workers: u32,
    },
    /// Check the theories of the directory, and say on which axioms and definitions the lemma with this full name rests.
    Axioms {
        workers: u32,
        name: Text,
    },
    /// Check the theories of the directory, and draw which lemma rests on what.
    Graph {
        workers: u32,
    },
    /// Show the states of the proof of the lemma with this full name.
    Show {
        name: Text,
    },
    /// Check the recorded derivation in the file of this name.
    Replay {
        name: Text,
    },
    /// Say of which facts the statement of the lemma with this full name is an instance.
    Find {
        name: Text,
    },
    /// Look for a proof in one step of the lemma with this full name.
    Try {
        workers: u32,
        name: Text,
    },
}
