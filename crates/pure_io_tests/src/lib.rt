//! A large output, and a gate, as tests; the other tests of `pure_io` are rows.
#![tactic(auto)]

#[cfg(test)]
mod outside;
