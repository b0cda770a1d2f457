//! The computations of one process: its values, its counts of messages, its expressions, and the effects of its commands.
//!
//! Each function equals its definition in the model, in `specs/` of the crate `dbg_base`.
#![tactic(auto)]

mod change;
mod env;
mod evaluation;
mod fault;
mod local;
mod value;

pub use change::{Change, effect};
pub use env::Env;
pub use evaluation::{eval, guard};
pub use fault::{EvalError, EvalFault};
pub use value::Value;
