//! A page to go through a session.
#![tactic(auto)]

mod data;
mod list;
mod page;
mod recorder;

pub use data::{Incomplete, PageData};
pub use page::write_page;
pub use recorder::Recorder;
pub use recorder::lines::REPLY_BYTES;
