//! The types of a model, as the text of its program has them.

use dbg_base::Pid;
use notation::Expansion;
use notation_tree::types::{EnumNode, MessageNode, TypeNode};
use std::alloc::AllocError;
use ui_text::ProgramText;

// Adds an enum.
fn add_enum(
    text: &mut ProgramText,
    expansion: &Expansion,
    node: &EnumNode,
) -> Result<(), AllocError> {
    text.add_enum()?;
    for named in &node.names {
        if let Some(value) = expansion.constant(named.constant) {
            text.add_enum_name(named.name.bytes(), value)?;
        }
    }
    Ok(())
}

// Adds a message. Each range was computed.
fn add_message(
    text: &mut ProgramText,
    expansion: &Expansion,
    node: &MessageNode,
) -> Result<(), AllocError> {
    text.add_message(node.name.bytes())?;
    for field in &node.fields {
        let low = expansion.constant(field.low).unwrap_or(0);
        let width = expansion.constant(field.width).unwrap_or(1);
        text.add_field(low, width, field.kind)?;
    }
    Ok(())
}

/// Adds the types of a model to a text.
pub(crate) fn add_types(text: &mut ProgramText, expansion: &Expansion) -> Result<(), AllocError> {
    for node in &expansion.model.tables.types {
        match node {
            TypeNode::Enum(node) => add_enum(text, expansion, node)?,
            TypeNode::Message(node) => add_message(text, expansion, node)?,
        }
    }
    Ok(())
}

/// Notes of which type the messages between so many processes are.
pub(crate) fn add_channel_types(
    text: &mut ProgramText,
    expansion: &Expansion,
    processes: u32,
) -> Result<(), AllocError> {
    if expansion.model.tables.types.is_empty() {
        return Ok(());
    }
    for from in 0..processes {
        for to in 0..processes {
            if let Some(kind) = expansion.channel_type(Pid(from), Pid(to)) {
                text.set_channel_type(Pid(from), Pid(to), kind)?;
            }
        }
    }
    Ok(())
}
