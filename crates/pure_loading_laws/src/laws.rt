//! That what loading is defined to be is there for any files, and which names and haves are in what is loaded: laws, each carried
//! by the contract of a function that does nothing.
ghost use Rattle.pure_loading_laws.specs.Loading.{EachFileSaysSomething, AnswersHaveALoading, FilesHaveASession};
ghost use Rattle.pure_loading_laws.specs.Plain.{TextsArePlain, LoadedArePlain, NoHavesWithoutVersions};

/// The file of a theory says something by itself: each of any bytes, and a missing one.
pub fn each_file_says_something()
    ensures { EachFileSaysSomething }
{}

/// Theories in byte order, with any answers on their files, have a loading: what each file says, which are refused, and an order of
/// those that are left.
pub fn answers_have_a_loading()
    ensures { AnswersHaveALoading }
{}

/// Any files have a session.
pub fn files_have_a_session()
    ensures { FilesHaveASession }
{}

/// In a theory of the grammar, and so in one that is loaded, neither its own name nor one that its commands declare has a dot.
pub fn names_have_no_dot()
    ensures texts { TextsArePlain }
    ensures loaded { LoadedArePlain }
{}

/// What is loaded of files without the word `version` has no haves.
pub fn no_haves_without_versions()
    ensures { NoHavesWithoutVersions }
{}
