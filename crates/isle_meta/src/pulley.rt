//! The rows of Pulley's interpreter.

use isle_core::{List, Text};

/// An instruction of the interpreter: its name in words and in one, and each field's name and type.
#[derive(Debug, Drop)]
pub struct PulleyInst {
    pub snake_name: Text,
    pub name: Text,
    pub fields: List<(Text, Text)>,
}
