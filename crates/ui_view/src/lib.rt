//! What explanations and pictures have in common: what they read of a session, and how they write expressions, commands and events.
#![tactic(auto)]

mod breakpoints;
mod commands;
mod consequences;
mod counted;
mod directive;
mod events;
mod explainer;
mod expressions;
mod finding;
mod hindrance;
mod hindrances;
mod long_events;
mod parts;
mod replies;
mod values;
mod view;
mod wrapping;

pub use breakpoints::part_of;
pub use counted::{BreakpointChange, CountedCommand, CountedCommands};
pub use directive::Directive;
pub use events::{EventNews, receiving, sending};
pub use explainer::{Answered, Echo, Explainer, ReplyLines, Told};
pub use expressions::{ProcessView, count_form};
pub use finding::find_hindrance;
pub use hindrance::Hindrance;
pub use replies::{LabelPlace, NamedReply, ValuePlace, named_refusal, named_reply};
pub use values::{NamedValue, names, names_variable, put_value};
pub use view::SourceView;
pub use wrapping::Wrapping;
