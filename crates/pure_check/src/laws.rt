//! Laws of the definitions. What each function ensures is the law.
ghost use Rattle.pure_check.specs.Laws.{AxiomsAreLedTo, AxiomsSuffice, CheckMeans, FindAsksTried, GenerateMeans, JobInRange};

use pure_citations::laws::listed_suffice;
use pure_find::laws::built_are_named;
use pure_words::laws::{one_reading, table_means};

/// The numbers of a job that words ask for are in range.
pub fn job_in_range()
    ensures { JobInRange }
{
    table_means();
}

/// Of words that ask for a check, the clauses of `pure` say what they would of a table alone.
pub fn check_means<L>()
    ensures { CheckMeans L }
{
    one_reading();
}

/// Of words that ask for a generated library, the clauses of `pure` say what they would of a table alone.
pub fn generate_means<L>()
    ensures { GenerateMeans L }
{
    one_reading();
}

/// Where the answer on what a lemma rests on is clean, the lemma of this name is proved, and its statement is derivable
/// alone without the theories' axioms and definitions that no listed row declares.
pub fn axioms_suffice()
    ensures { AxiomsSuffice }
{
    listed_suffice();
}

/// The answer on what a lemma rests on lists just what edges of the session's graph lead to from the lemma.
pub fn axioms_are_led_to()
    ensures { AxiomsAreLedTo }
{
    listed_suffice();
}

/// Of which facts a lemma is an instance is asked of those by which it is tried, in the same order.
pub fn find_asks_tried()
    ensures { FindAsksTried }
{
    built_are_named();
}
