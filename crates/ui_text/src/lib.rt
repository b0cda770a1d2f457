//! Texts for a person that need no session: their lines, the places of commands in a program text, the forms of commands, the meaning of
//! refusals, and the likely correction of a program text.
#![tactic(auto)]

mod escapes;
mod faults;
mod forms;
mod indices;
mod markup;
mod names;
mod notes;
mod numbers;
mod part;
mod source;
mod value_types;

pub use escapes::{put_visible, visible};
pub use faults::{foreign_correction, say_mark, tell_correction, tell_mark, tell_no_end_line};
pub use forms::{
    is_directive_word, is_whole_word, tell_help, tell_near_word, tell_to_file, tell_too_long,
    tell_word, whole_word,
};
pub use indices::index_count;
pub use markup::{as_markup, markup_of};
pub use names::{Declaration, DeclaredAs, find_declaration};
pub use notes::{NoteLine, Notes, StyleChange};
pub use numbers::meaning;
pub use part::{NamedNumber, PackedValue, Part, ShownValue};
pub use source::{ProgramText, command_offsets, is_word_byte, prefix_word};
