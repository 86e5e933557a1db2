//! The arguments of a command, as data, and how clap gets them.
use crate::fault::ArgumentFault;
use clap::{Arg, ArgAction, ArgMatches, Command};
use std::alloc::{AllocError, Global};

/// How an argument is given.
#[derive(Clone, Copy)]
pub(crate) enum Form {
    /// `--NAME VALUE`, and it is required.
    Required,
    /// `--NAME VALUE`.
    Optional,
    /// `--NAME VALUE`, any number of times.
    Repeated,
    /// `--NAME VALUE`, and it requires the argument of this name.
    With(&'static str),
    /// `--NAME`, without a value.
    Flag,
    /// A value alone, by its position, and it is required.
    Place,
    /// Values alone, by their position; there may be any number.
    Many,
}

#[derive(Clone, Copy)]
pub(crate) struct ArgumentSpec {
    /// The name, without dashes.
    pub name: &'static str,
    /// The name of its value in the help.
    pub value: &'static str,
    pub help: &'static str,
    pub form: Form,
    /// The message if it is required and missing.
    pub missing: &'static str,
}

impl ArgumentSpec {
    pub const TO: ArgumentSpec = ArgumentSpec {
        name: "to",
        value: "ADDRESS",
        help: "The server: a host and a port, or unix:PATH",
        form: Form::Required,
        missing: "--to is required",
    };

    pub const DEVICE: ArgumentSpec = ArgumentSpec {
        name: "device",
        value: "DEVICE",
        help: "The drive at the server",
        form: Form::Required,
        missing: "--device is required",
    };

    pub const TIMEOUT: ArgumentSpec = ArgumentSpec {
        name: "timeout",
        value: "SECONDS",
        help: "How long to wait for the server [default: no limit]",
        form: Form::Optional,
        missing: "",
    };

    fn is_required(&self) -> bool {
        match self.form {
            Form::Required | Form::Place => true,
            _ => false,
        }
    }
}

pub(crate) fn push_command<'a>(
    alloc: Global,
    (name, about): (&'static str, &'static str),
    arguments: &[ArgumentSpec],
    commands: &mut Vec<Command<'a>>,
) -> Result<(), AllocError> {
    match args_of(alloc, arguments) {
        Ok(args) => push(commands, Command::new(alloc, name).about(about).args(args)),
        Err(refused) => Err(refused),
    }
}

pub(crate) fn args_of<'a>(
    alloc: Global,
    arguments: &[ArgumentSpec],
) -> Result<Vec<Arg<'a>>, AllocError> {
    let mut args = Vec::new(alloc);
    for argument in arguments {
        push_arg(alloc, argument, &mut args)?;
    }
    Ok(args)
}

fn push_arg<'a>(
    alloc: Global,
    argument: &ArgumentSpec,
    args: &mut Vec<Arg<'a>>,
) -> Result<(), AllocError> {
    match argument.form {
        Form::With(other) => push(args, option(alloc, argument).requires_arg(other)),
        _ => push(args, Ok(arg_of(alloc, argument))),
    }
}

/// Builds clap's argument for one that requires no other.
fn arg_of<'a>(alloc: Global, argument: &ArgumentSpec) -> Arg<'a> {
    match argument.form {
        Form::Flag => flag(alloc, argument),
        Form::Place => valued(alloc, argument),
        Form::Many => valued(alloc, argument).action(ArgAction::Append),
        Form::Repeated => option(alloc, argument).action(ArgAction::Append),
        _ => option(alloc, argument),
    }
}

/// Builds `--NAME VALUE`.
fn option<'a>(alloc: Global, argument: &ArgumentSpec) -> Arg<'a> {
    valued(alloc, argument).long(argument.name)
}

/// Builds `--NAME`.
fn flag<'a>(alloc: Global, argument: &ArgumentSpec) -> Arg<'a> {
    plain(alloc, argument)
        .long(argument.name)
        .action(ArgAction::SetTrue)
}

fn valued<'a>(alloc: Global, argument: &ArgumentSpec) -> Arg<'a> {
    plain(alloc, argument)
        .value_name(argument.value)
        .required(argument.is_required())
        .action(ArgAction::Set)
}

fn plain<'a>(alloc: Global, argument: &ArgumentSpec) -> Arg<'a> {
    Arg::new(alloc, argument.name).help(argument.help)
}

/// Fails also if making the item failed.
fn push<T: Drop>(items: &mut Vec<T>, item: Result<T, AllocError>) -> Result<(), AllocError> {
    match item {
        Ok(item) => Ok(items.push(item)?),
        Err(refused) => Err(refused),
    }
}

/// Fails with the message of the first required argument that is missing.
pub(crate) fn check_given(
    matches: &ArgMatches<'_>,
    arguments: &[ArgumentSpec],
) -> Result<(), ArgumentFault> {
    for argument in arguments {
        if argument.is_required() && matches.get_str(argument.name).is_none() {
            return Err(ArgumentFault::Missing(argument.missing));
        }
    }
    Ok(())
}

/// Returns the value of an argument, or an empty text if it is not given.
pub(crate) fn value_in<'a>(matches: &ArgMatches<'a>, name: &str) -> &'a str {
    match matches.get_str(name) {
        Some(value) => value,
        None => "",
    }
}

/// Whether an argument without a value is given.
pub(crate) fn is_given(matches: &ArgMatches<'_>, name: &str) -> bool {
    matches.get_str(name) == Some("true")
}
