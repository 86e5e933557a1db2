//! Why a line was not entered in a catalog.

use catalog::CatalogFault;
use dump_files::EnterFault;
use rdump_system::NO_CATALOG;
use std::fmt::{self, Display, Formatter, Write as _};
use std::io::{self, ErrorKind};

#[derive(Drop)]
pub(crate) struct Unentered {
    pub fault: EnterFault,
    /// The system's error, if the file failed.
    pub failure: Option<io::Error>,
}

impl Display for Unentered {
    fn fmt<W: fmt::Write>(&self, f: &mut Formatter<W>) -> fmt::Result {
        match (self.fault, &self.failure) {
            (EnterFault::Catalog(CatalogFault::OutOfMemory), _) => f.write_str("out of memory"),
            (EnterFault::Catalog(fault), _) => write!(f, "{NO_CATALOG}: {fault}"),
            (_, Some(error)) if error.kind() == ErrorKind::OutOfMemory => {
                f.write_str("out of memory")
            }
            (_, Some(error)) => write!(f, "{error}"),
            (_, None) => f.write_str("it could not be read or replaced"),
        }
    }
}
