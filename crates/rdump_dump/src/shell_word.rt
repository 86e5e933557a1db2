//! Commands for a shell, to print.

use console::plain;
use rdump_args::DumpLine;
use std::fmt::{self, Display, Formatter, Write as _};

/// A text as one word of a command for sh(1). It is unchanged if it is not empty and contains only
/// letters, digits and `/._:,+@%=-`. Otherwise it is in single quotes. A control character becomes
/// `?`.
#[derive(Clone, Copy)]
pub(crate) struct ShellWord<'a>(pub &'a str);

impl Display for ShellWord<'_> {
    fn fmt<W: fmt::Write>(&self, f: &mut Formatter<W>) -> fmt::Result {
        if is_plain(self.0) {
            return f.write_str(self.0);
        }
        f.write_str("'")?;
        for (at, piece) in self.0.split('\'').enumerate() {
            if at > 0 {
                f.write_str("'\\''")?;
            }
            write!(f, "{}", plain(piece))?;
        }
        f.write_str("'")
    }
}

/// The command that takes the first reel of a dump's drive offline.
#[derive(Clone, Copy)]
pub(crate) struct OfflineCommand<'l, 'a>(pub &'l DumpLine<'a>);

impl Display for OfflineCommand<'_, '_> {
    fn fmt<W: fmt::Write>(&self, f: &mut Formatter<W>) -> fmt::Result {
        let (to, drive) = (ShellWord(self.0.to), ShellWord(self.0.device));
        write!(f, "rdump mt --to {to} --device {drive} offline 1")
    }
}

/// Whether a shell takes this text as one word, unchanged.
fn is_plain(text: &str) -> bool {
    !text.is_empty()
        && text.bytes().all(|b| b.is_ascii_alphanumeric() || b"/._:,+@%=-".contains(&b))
}
