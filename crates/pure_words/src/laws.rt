//! Laws of the definitions. Each function has no body: its contract is the law.
ghost use Rattle.pure_words.specs.Commands.{TableMeans};
ghost use Rattle.pure_words.specs.Line.{AllAreRead};
ghost use Rattle.pure_words.specs.Words.{OneReading};

/// No words are two jobs.
pub fn one_reading()
    ensures { OneReading }
{}

/// What the table says of each subcommand, written out: `check`, `generate`, `places`, `axioms`, `graph`, `show`, `replay`, `find` and `try` take what they take, and there is no other.
pub fn table_means()
    ensures { TableMeans }
{}

/// The words of each job are taken by `clap`, and what it finds among them gives the job.
pub fn all_are_read()
    ensures { AllAreRead }
{}
