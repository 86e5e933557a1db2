//! The command line of `rsim`.

use clap::{Arg, ArgAction, Command, Error};
use std::alloc::{AllocError, Global};

/// Returns the file that the arguments name. The first argument is the name of the program itself.
///
/// Otherwise it fails with clap's text for the user: what is wrong with the arguments, or the help
/// or the version if they ask for it. If an allocation fails, the error's kind is `OutOfMemory`.
pub(crate) fn file_in<'a>(alloc: Global, arguments: &'a [&'a str]) -> Result<&'a str, Error> {
    let matches = command(alloc)?.try_get_matches_from(arguments)?;
    Ok(matches.get_str("file").unwrap_or(""))
}

fn command<'a>(alloc: Global) -> Result<Command<'a>, AllocError> {
    let file = Arg::new(alloc, "file")
        .value_name("FILE")
        .required(true)
        .action(ArgAction::Set)
        .help("The schedule");
    Command::new(alloc, "rsim")
        .about("Simulator of dumps to a remote tape, under a schedule of events")
        .version("0.1.0")
        .arg(file)
}
