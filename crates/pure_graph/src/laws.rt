//! Laws of the definitions. Each function has no body: its contract is the law.
ghost use Rattle.pure_graph.specs.Laws.{OneSession, LoadingIsFirst, SessionIsFirst, NoUnknownVersion, LoadedTextsAreFirst, FirstWithoutVersions, LoadingWithoutVersions, SessionWithoutVersions};

/// Some files have one session at most.
pub fn one_session()
    ensures { OneSession }
{}

/// Over files whose trees have version 1 and no haves, loading is what it was while there was one version.
pub fn loading_is_first()
    ensures { LoadingIsFirst }
{}

/// So is the session, with its names.
pub fn session_is_first()
    ensures { SessionIsFirst }
{}

/// None of such files is refused for its version.
pub fn no_unknown_version()
    ensures { NoUnknownVersion }
{}

/// The trees of those that are loaded have version 1 and no haves.
pub fn loaded_texts_are_first()
    ensures { LoadedTextsAreFirst }
{}

/// A file without the word `version` has such a tree, if it has one.
pub fn first_without_versions()
    ensures { FirstWithoutVersions }
{}

/// Over files without the word `version`, loading is what it was, by the grammar of version 1.
pub fn loading_without_versions()
    ensures { LoadingWithoutVersions }
{}

/// So is the session, with its names.
pub fn session_without_versions()
    ensures { SessionWithoutVersions }
{}
