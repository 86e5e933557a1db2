//! The log line for the end of a connection.

use crate::session_fault::SessionFault;
use rmt_server::Served;
use std::fmt::{self, Display, Formatter, Write};

#[derive(Clone, Copy)]
pub(crate) struct Ended {
    pub(crate) number: u64,
    pub(crate) ending: Result<Served, SessionFault>,
    /// Whether a read or a write failed because it waited for too long.
    pub(crate) is_idle: bool,
}

impl Display for Ended {
    fn fmt<W: Write>(&self, f: &mut Formatter<W>) -> fmt::Result {
        write!(f, "connection {}: ended: ", self.number)?;
        match self.ending {
            Ok(Served::End) => f.write_str("end"),
            Ok(Served::Truncated) => f.write_str("truncated"),
            Ok(Served::Broken(fault)) => write!(f, "{fault}"),
            Err(SessionFault::Stream(_)) if self.is_idle => f.write_str("idle"),
            Err(fault) => write!(f, "{fault}"),
        }
    }
}
