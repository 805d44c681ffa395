//! What the programs share: the command line, the exit status, the choice of a field, files, and messages.
#![tactic(auto)]

pub mod arguments;
pub mod error;
pub mod field_choice;
pub mod files;
pub mod program;
pub mod refused;
pub mod status;

/// The version that every program prints.
pub const VERSION: &str = "Gorvaneth 1.0";
