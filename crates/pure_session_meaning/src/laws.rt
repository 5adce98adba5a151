//! What the definitions mean: laws, each carried by the contract of a function that does nothing.
ghost use Rattle.pure_session_meaning.specs.Laws.{ClosesOnce, ForkOnce, ForksOfOneCommand, ForksProvable, ForksStand, LabelsAscend, PromisesAreForks, PromisesBeforeForks, RunsOrderly, StatementsBindForks, StatementsOnce};
ghost use Rattle.pure_session_meaning.specs.First.{ClosesAsFirst, ForksAsFirst, StatementsAsFirst};
ghost use Rattle.pure_session_meaning.specs.Closing.{ContentsMergeOrNot, TheoryCloses};
ghost use Rattle.pure_session_meaning.specs.Given.{RunsClose, RunsGive, TheoriesMayBegin};
ghost use Rattle.pure_session_meaning.specs.Steps.{RunBegins, RunCloses, RunGoesOn};

/// A theory that begins is a run without notes.
pub fn run_begins()
    ensures { RunBegins }
{}

/// A run goes on with all that its next command declares.
pub fn run_goes_on()
    ensures { RunGoesOn }
{}

/// A run with no command left closes the theory.
pub fn run_closes()
    ensures { RunCloses }
{}

/// While a theory runs its contents are good ones, in the session, with tidy facts alone.
pub fn runs_orderly()
    ensures { RunsOrderly }
{}

/// A proof can be run of each lemma and have that is bound.
pub fn forks_provable()
    ensures { ForksProvable }
{}

/// Each lemma and have that is bound stands over the content that the parts of its command before it leave, with the label of
/// its command and of its part, behind all promises of that content, which is a good one, in the session, with tidy facts alone.
pub fn forks_stand()
    ensures { ForksStand }
{}

/// Each promise of a content is that of a lemma or have of the session, which was bound before.
pub fn promises_are_forks()
    ensures { PromisesAreForks }
{}

/// So is each promise of a content over which a lemma or have stands.
pub fn promises_before_forks()
    ensures { PromisesBeforeForks }
{}

/// Those that are of one lemma are of one command.
pub fn forks_of_one_command()
    ensures { ForksOfOneCommand }
{}

/// The lemmas and haves that a session's notes bind are just those that are bound somewhere in it.
pub fn statements_bind_forks()
    ensures { StatementsBindForks }
{}

/// The labels of the session's lemmas and haves ascend.
pub fn labels_ascend()
    ensures { LabelsAscend }
{}

/// One thing at most becomes of a theory.
pub fn closes_once()
    ensures { ClosesOnce }
{}

/// The session's notes are one list.
pub fn statements_once()
    ensures { StatementsOnce }
{}

/// A theory's lemma or have after so many others is one.
pub fn fork_once()
    ensures { ForkOnce }
{}

/// The next command of a run is given what the call that declares asks.
pub fn runs_give()
    ensures { RunsGive }
{}

/// Each theory that begins closes.
pub fn runs_close()
    ensures { RunsClose }
{}

/// A theory of the session whose parents ran may begin over their last contents.
pub fn theories_may_begin()
    ensures { TheoriesMayBegin }
{}

/// Contents merge, one after the other, or one of them is the first in conflict.
pub fn contents_merge_or_not()
    ensures { ContentsMergeOrNot }
{}

/// A theory whose parents have closed closes too.
pub fn theory_closes()
    ensures { TheoryCloses }
{}

/// Of theories without haves the same becomes as before there were any.
pub fn closes_as_first()
    ensures { ClosesAsFirst }
{}

/// So they leave the same notes.
pub fn statements_as_first()
    ensures { StatementsAsFirst }
{}

/// Each lemma that they bind is of part 0 of its command, and its proof is in no lemma but itself.
pub fn forks_as_first()
    ensures { ForksAsFirst }
{}
