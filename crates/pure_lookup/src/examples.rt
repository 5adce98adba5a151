//! Examples of the definitions, each carried by the contract of a function that does nothing.
ghost use Rattle.pure_lookup.specs.Examples.{LastExample, FullExample, SessionExample, PureExample, ProtectExample};

/// Over two ancestors with one base the last in load order is meant, both ways round; a full name means its own.
pub fn ancestors_example()
    ensures last { LastExample }
    ensures full { FullExample }
    ensures session { SessionExample }
{}

/// What is meant over Pure's content, and what never is.
pub fn pure_example()
    ensures pure { PureExample }
    ensures protect { ProtectExample }
{}
