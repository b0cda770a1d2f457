//! The plain types that all crates of the debugger share, and the limits.
//!
//! They have no logic. `specs/` defines what a system of processes does and what a session shows, one module for each concept.
//! `docs/model.md` explains these definitions.
#![tactic(auto)]

mod call;
mod elimination;
mod expr;
mod fault;
mod gate;
mod ids;
pub mod limits;
mod name;
mod refusal;
mod said;
mod sequence;
mod sign;

pub use call::{Call, Conjunct, Plan, Query, copy_conjuncts};
pub use elimination::{Cause, Elimination};
pub use expr::{Direction, Expr, Operator, Sort};
pub use fault::{FaultKind, ProgFault};
pub use gate::{Gate, OpenGate};
pub use ids::{Choice, Cut, Pid, count_of};
pub use name::Name;
pub use refusal::Refusal;
pub use said::{Answer, Done, Head, Reply, Said};
pub use sequence::Sequence;
pub use sign::Sign;
