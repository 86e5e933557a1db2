//! Streams that are read into a file.

use super::check_row;
use std::alloc::Global;
use std::fs;
use std::io::{self, ErrorKind, Read};
use std::test::Fail;
use whole_files::{
    NamedSpool, SpoolFault, copy_all, named_spool_path, spool_folder, spool_unnamed,
};

/// What a read gives: bytes, or an error of this kind.
type Piece = Result<&'static [u8], ErrorKind>;

/// A stream that gives these pieces, one at each read, and is then at its end.
#[derive(Drop)]
struct Pieces {
    pieces: &'static [Piece],
    at: usize,
}

impl Pieces {
    /// Makes the stream that gives these pieces.
    fn new(pieces: &'static [Piece]) -> Self {
        Pieces { pieces, at: 0 }
    }
}

impl Read for Pieces {
    fn read(&mut self, into: &mut [u8]) -> io::Result<usize> {
        let Some(piece) = self.pieces.get(self.at) else {
            return Ok(0);
        };
        self.at = self.at.saturating_add(1);
        match piece {
            Ok(bytes) if bytes.len() <= into.len() => {
                into[..bytes.len()].copy_from_slice(bytes);
                Ok(bytes.len())
            }
            Ok(_) => Ok(0),
            Err(kind) => Err(io::Error::from(*kind)),
        }
    }
}

/// The bytes `abc`, in two pieces.
static ALL: [Piece; 2] = [Ok(b"ab"), Ok(b"c")];

/// Streams, and what is copied of each. None is that the stream fails.
static ROWS: [(&[Piece], Option<&[u8]>); 4] = [
    (
        &[Ok(b"ab"), Err(ErrorKind::Interrupted), Ok(b"c")],
        Some(b"abc"),
    ),
    (&[], Some(b"")),
    (&[Ok(b"ab"), Err(ErrorKind::ConnectionReset)], None),
    (&[Err(ErrorKind::ConnectionReset), Ok(b"ab")], None),
];

/// Whether what is copied of a stream is as the row says.
fn is_copied(alloc: Global, (pieces, wanted): (&'static [Piece], Option<&[u8]>)) -> bool {
    let mut bytes = Vec::new(alloc);
    match (
        copy_all(alloc, &mut Pieces::new(pieces), &mut bytes),
        wanted,
    ) {
        (Ok(count), Some(wanted)) => count == wanted.len() as u64 && bytes.as_slice() == wanted,
        (Err(SpoolFault::Input(error)), None) => error.kind() == ErrorKind::ConnectionReset,
        _ => false,
    }
}

#[test]
fn streams_that_are_copied(rt: HostRuntime) {
    for (at, row) in ROWS.iter().enumerate() {
        check_row(&rt, at, is_copied(rt.alloc(), *row));
    }
}

/// Whether the file at this path has these bytes.
fn has(rt: &HostRuntime, path: &str, wanted: &[u8]) -> io::Result<bool> {
    Ok(fs::read(rt, path)?.as_slice() == wanted)
}

/// Whether a spool in this folder has the bytes `abc`, and no name.
fn is_spooled(rt: &HostRuntime, folder: &str) -> io::Result<bool> {
    match spool_unnamed(rt, rt.alloc(), folder, &mut Pieces::new(&ALL), false) {
        Ok((file, len)) => Ok(len == 3 && file.metadata()?.len() == 3),
        Err(_) => Ok(false),
    }
}

#[test]
fn a_spool_without_a_name(rt: HostRuntime) -> Result<(), Fail> {
    fs::create_dir(&rt, "folder")?;
    fs::write(&rt, "folder/.rdump-spool.0", b"of another")?;
    assert!(rt; is_spooled(&rt, "folder")?);
    assert!(rt; !fs::exists(&rt, "folder/.rdump-spool.1")?);
    assert!(rt; has(&rt, "folder/.rdump-spool.0", b"of another")?);
    let empty = spool_unnamed(&rt, rt.alloc(), "folder", &mut Pieces::new(&[]), false);
    assert!(rt; matches!(empty, Err(SpoolFault::Empty)));
    assert!(rt;
        matches!(
            spool_unnamed(&rt, rt.alloc(), ".", &mut Pieces::new(&[]), true),
            Ok((_, 0))
        )
    );
    fs::remove_dir_all(&rt, "folder")?;
    Ok(())
}

#[test]
fn the_folder_of_a_spool(rt: HostRuntime) {
    assert!(rt; spool_folder(None, "dates") == ".");
    assert!(rt; spool_folder(Some("s"), "f/dates") == "s");
    assert!(rt; spool_folder(None, "f/dates") == "f");
}

/// Makes a spool with a name, of the bytes `abc`.
fn named<'a>(rt: &'a HostRuntime, path: &str) -> Result<NamedSpool<'a, HostRuntime>, SpoolFault> {
    NamedSpool::make(rt, rt.alloc(), path, &mut Pieces::new(&ALL), false)
}

#[test]
fn a_spool_with_a_name(rt: HostRuntime) -> Result<(), Fail> {
    let path = named_spool_path(&rt, rt.alloc(), "kept")?;
    assert!(rt; path.as_str() == "kept.payload");
    let made = named(&rt, "kept.payload");
    assert!(rt; has(&rt, "kept.payload", b"abc")?);
    assert!(rt; matches!(named(&rt, "kept.payload"), Err(SpoolFault::Spool(_))));
    drop(made);
    assert!(rt; matches!(named(&rt, "kept.payload"), Err(SpoolFault::Left)));
    let Some(found) = NamedSpool::find(&rt, rt.alloc(), "kept.payload")? else {
        return Err(io::Error::from(ErrorKind::NotFound).into());
    };
    assert!(rt; found.file()?.metadata()?.len() == 3);
    assert!(rt; found.remove().is_ok() && found.remove().is_ok());
    assert!(rt; NamedSpool::find(&rt, rt.alloc(), "kept.payload")?.is_none());
    Ok(())
}

/// A stream that fails leaves nothing. What others put in place of a spool stays.
#[test]
fn a_spool_that_fails(rt: HostRuntime) -> Result<(), Fail> {
    let mut fails = Pieces::new(&[Ok(b"ab"), Err(ErrorKind::ConnectionReset)]);
    let made = NamedSpool::make(&rt, rt.alloc(), "kept.payload", &mut fails, false);
    assert!(rt; matches!(made, Err(SpoolFault::Input(_))));
    assert!(rt; !fs::exists(&rt, "kept.payload")?);
    let Ok(made) = named(&rt, "kept.payload") else {
        return Err(io::Error::from(ErrorKind::NotFound).into());
    };
    fs::remove_file(&rt, "kept.payload")?;
    fs::write(&rt, "kept.payload", b"of another")?;
    assert!(rt; made.remove().is_ok());
    assert!(rt; has(&rt, "kept.payload", b"of another")?);
    fs::remove_file(&rt, "kept.payload")?;
    Ok(())
}
