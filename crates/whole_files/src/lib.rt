//! Files that are read whole and replaced whole, and files that a dump is read from.
//!
//! `ReplacedFile` is a file that is read and replaced as a whole: dumpdates, a catalog or a
//! checkpoint. `open_payload` opens a payload, and `PayloadLook` checks whether it changed.
//! `spool_unnamed` and `NamedSpool` read standard input into a file.
//!
//! Each function that returns an `io::Result` fails with the system's error, or with `OutOfMemory`
//! if an allocation fails. Its comment has only the other errors.
//!
//! # Contracts
//!
//! To replace a file, `ReplacedFile` writes a *new file* in the same folder, and then renames it to
//! the name of the old file. No clause says what is in a file of the file system.
#![tactic(auto)]

mod file_id;
mod lock_file;
mod named;
mod new_file;
mod open_file;
mod payload_look;
mod read;
mod replaced_file;
mod spool;
mod whole_file;

pub use file_id::FileId;
pub use named::named_file;
pub use payload_look::{PayloadChange, PayloadLook, open_payload};
pub use read::{
    check_plain, is_null, no_plain_file, read_limited, read_named, read_or_empty, read_steady,
};
pub use replaced_file::ReplacedFile;
pub use spool::{
    INPUT_NAME, NamedSpool, SpoolFault, copy_all, named_spool_path, spool_folder, spool_unnamed,
};
pub use whole_file::{FileFailed, WholeFile};
