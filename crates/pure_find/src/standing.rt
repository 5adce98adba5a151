//! How a fact stands to a statement.

/// The statement is an instance of the fact; or it may be one, as this wasn't decided; or it is none.
#[derive(Clone, Copy, Debug, PartialEq, Eq)]
pub enum Standing {
    Match,
    Maybe,
    NoMatch,
}
