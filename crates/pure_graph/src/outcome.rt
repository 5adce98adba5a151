//! What loading says of a file.
use pure_script::TheoryText;
use pure_text::Text;

/// Why a file is refused in loading.
#[derive(Drop)]
pub enum Reason {
    /// It isn't among the first files.
    TooManyFiles,
    /// The file of this theory, its own or that of an import, is missing.
    NoFile { theory: Text },
    /// It has too many bytes, parts or steps of a proof, or there are too many parts with it.
    TooLarge,
    /// It isn't in the grammar.
    Syntax { line: u32, column: u32 },
    /// Its version is neither 1 nor 2.
    UnknownVersion,
    /// Its header has another name than the file, or that of Pure.
    HeaderName,
    /// It lies on a cycle of imports.
    CyclicImports,
    /// This import is refused.
    ParentRefused { theory: Text },
}

/// A file is refused, or it stands: its bytes, and the tree that they spell.
#[derive(Drop)]
pub enum Outcome {
    Refused { reason: Reason },
    Stands { source: Text, text: TheoryText },
}

/// A theory, and what loading says of its file.
#[derive(Drop)]
pub struct TheoryFile {
    pub theory: Text,
    pub outcome: Outcome,
}
