//! What types, terms, classes and declarations are, how terms are typed, substituted and reduced: definitions alone, which contracts cite.
#![tactic(auto)]
