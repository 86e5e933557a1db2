//! Faults in arguments that clap accepts.
use clap::error::ErrorKind;

/// The text in a variant is for the user.
#[derive(Clone, Copy)]
pub(crate) enum ArgumentFault {
    NoCommand,
    Missing(&'static str),
    Value(&'static str),
    /// Two arguments exclude each other.
    Conflict(&'static str),
    OutOfMemory,
}

impl ArgumentFault {
    pub(crate) fn kind(self) -> ErrorKind {
        match self {
            ArgumentFault::NoCommand => ErrorKind::MissingSubcommand,
            ArgumentFault::Missing(_) => ErrorKind::MissingRequiredArgument,
            ArgumentFault::Value(_) => ErrorKind::ValueValidation,
            ArgumentFault::Conflict(_) => ErrorKind::ArgumentConflict,
            ArgumentFault::OutOfMemory => ErrorKind::OutOfMemory,
        }
    }

    pub(crate) fn text(self) -> &'static str {
        match self {
            ArgumentFault::NoCommand => "a command is required",
            ArgumentFault::Missing(text)
            | ArgumentFault::Value(text)
            | ArgumentFault::Conflict(text) => text,
            ArgumentFault::OutOfMemory => "out of memory",
        }
    }
}
