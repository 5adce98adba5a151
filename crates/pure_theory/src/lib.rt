//! Theories: what is declared, in stages that grow from one another.
#![tactic(auto)]

mod agreed;
mod alike;
mod begin;
mod classes;
mod cthm;
mod declare;
mod definition;
mod facts;
mod fault;
mod local;
mod lookup;
mod plain;
mod pure;
mod relation;
mod schematic;
mod tables;
mod theory;
mod theory_id;

pub use cthm::{Cthm, TransferFault};
pub use facts::Fact;
pub use fault::DeclFault;
pub use pure::pure_declarations;
pub use pure_certify::CertFault;
pub use pure_shared_maps::Shelf;
pub use pure_theorem::{Built, Pair, RuleFault, Thm};
pub use pure_theory_tables::{Decl, Statement};
pub use theory::{Stage, Theory};
