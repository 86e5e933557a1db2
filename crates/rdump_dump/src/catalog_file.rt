//! The catalog in which a dump enters its beginning, its counted volumes and its end.

use crate::unentered::Unentered;
use catalog::{Catalog, CatalogLine, SumLine};
use console::plain;
use dump_client::{Blocks, Client, VolumeCount};
use dump_files::{
    EnterFault, Entered, begun_line_of, enter_begun, enter_finished, enter_line, finished_line_of,
    has_count, sum_line_of,
};
use rdump_system::ClientSystem;
use std::fmt::{self, Display, Formatter, Write as _};
use volume_check::Summed;
use whole_files::ReplacedFile;

/// Once the dump has begun, it goes on if a line cannot be entered.
#[derive(Drop)]
pub(crate) struct CatalogFile<'a, R: ClientSystem> {
    rt: &'a R,
    path: &'a str,
    /// How many bytes the payload has.
    bytes: u64,
    /// How many lines say that the dump began. None if nothing is to be entered any more.
    begun: Option<usize>,
    /// Whether everything that the catalog is to have of the dump so far was entered.
    has_all: bool,
}

impl<'a, R: ClientSystem> CatalogFile<'a, R> {
    pub(crate) fn new(rt: &'a R, path: &'a str, bytes: u64) -> Self {
        CatalogFile {
            rt,
            path,
            bytes,
            begun: None,
            has_all: true,
        }
    }

    /// Enters that the dump begins.
    pub(crate) fn begin<B: Blocks>(&mut self, client: &Client<B>) -> Result<(), Unentered> {
        let mut file = self.file();
        match enter_begun(
            self.rt.alloc(),
            &mut file,
            begun_line_of(client, self.bytes),
        ) {
            Ok(begun) => {
                self.begun = Some(begun);
                Ok(())
            }
            Err(fault) => Err(unentered(fault, file)),
        }
    }

    /// Goes on with a dump that is resumed.
    pub(crate) fn go_on(&mut self, begun: usize) {
        self.begun = Some(begun);
    }

    /// Goes on with a dump that is resumed and has counted volumes. Exactly one line must say that
    /// it began, and each counted volume must have a line in force. Otherwise prints what is
    /// missing, and enters nothing.
    pub(crate) fn resume<B: Blocks>(&mut self, catalog: &Catalog, client: &Client<B>) {
        let begun = catalog.begun(client.run().id());
        let is_missing = report_unsummed(self.rt, catalog, client);
        if is_missing {
            self.has_all = false;
        } else if begun != 1 {
            let path = plain(self.path);
            let _ = eprintln!(self.rt;
                "rdump: {path}: {begun} dumps of this name, level and dates began: nothing is entered"
            );
            self.has_all = false;
        } else {
            self.begun = Some(begun);
        }
    }

    pub(crate) fn path(&self) -> &'a str {
        self.path
    }

    /// Whether more can be entered, and nothing is missing.
    pub(crate) fn is_open(&self) -> bool {
        self.has_all && self.begun.is_some()
    }

    pub(crate) fn has_all(&self) -> bool {
        self.has_all
    }

    /// Enters the line of a volume that was counted.
    pub(crate) fn enter<B: Blocks>(
        &mut self,
        client: &Client<Summed<B>>,
        count: VolumeCount,
    ) -> Result<(), Missing> {
        let Some(begun) = self.begun else {
            return Ok(());
        };
        let Some(line) = sum_line_of(client, count) else {
            self.has_all = false;
            return Err(Missing::Sum(count.volume));
        };
        let mut file = self.file();
        let line = CatalogLine::Volume(line);
        match enter_line(self.rt.alloc(), &mut file, begun, &line) {
            Ok(entered) => self.note(entered),
            Err(fault) => {
                self.has_all = false;
                Err(Missing::Line(unentered(fault, file), line))
            }
        }
    }

    /// Enters that the dump of a finished client is finished, unless a line of it is missing or its
    /// payload changed.
    pub(crate) fn finish<B: Blocks>(
        &mut self,
        client: &Client<B>,
        has_changed: bool,
    ) -> Result<(), Missing> {
        let Some(begun) = self.begun else {
            return Ok(());
        };
        let line = finished_line_of(client, self.bytes);
        let (true, false, Some(line)) = (self.has_all, has_changed, line) else {
            self.has_all = false;
            return Ok(());
        };
        let mut file = self.file();
        match enter_finished(self.rt.alloc(), &mut file, begun, client, line) {
            Ok(entered) => self.note(entered),
            Err(fault) => {
                self.has_all = false;
                Err(Missing::End(unentered(fault, file)))
            }
        }
    }

    fn file(&self) -> ReplacedFile<'a, R> {
        ReplacedFile::new(self.rt, self.rt.alloc(), self.path)
    }

    /// If another run began the dump anew, nothing more is entered.
    fn note(&mut self, entered: Entered) -> Result<(), Missing> {
        match entered {
            Entered::Added | Entered::There => Ok(()),
            Entered::Another => {
                self.has_all = false;
                self.begun = None;
                Err(Missing::Another)
            }
            Entered::Uncovered => {
                self.has_all = false;
                Err(Missing::Uncovered)
            }
        }
    }
}

/// A part of a dump that its catalog lacks, and why.
#[derive(Drop)]
pub(crate) enum Missing {
    /// All from now on: another run began the dump anew.
    Another,
    /// The line that the dump is finished: a counted volume has no line in force.
    Uncovered,
    /// The line of this volume, which has no sum.
    Sum(u32),
    /// This line of a volume.
    Line(Unentered, CatalogLine),
    /// The end of the dump.
    End(Unentered),
}

impl Display for Missing {
    fn fmt<W: fmt::Write>(&self, f: &mut Formatter<W>) -> fmt::Result {
        match self {
            Missing::Another => f.write_str(
                "another dump of this name, level and dates began: nothing more is entered",
            ),
            Missing::Uncovered => f.write_str("a counted volume has no line in force"),
            Missing::Sum(volume) => write!(f, "volume {volume} has no sum"),
            Missing::Line(why, CatalogLine::Volume(line)) => {
                write!(
                    f,
                    "{why}: add this line, above those of later volumes:\n{}",
                    Spelled(line)
                )
            }
            Missing::Line(why, _) | Missing::End(why) => write!(f, "{why}"),
        }
    }
}

/// The line of a volume, as a catalog has it.
#[derive(Clone, Copy)]
struct Spelled<'a>(&'a SumLine);

impl Display for Spelled<'_> {
    fn fmt<W: fmt::Write>(&self, f: &mut Formatter<W>) -> fmt::Result {
        let (line, label) = (self.0, self.0.label());
        for byte in line.sum() {
            write!(f, "{byte:02x}")?;
        }
        let (name, level, date, since) = (label.name(), label.level(), label.date(), label.since());
        let (volume, first, blocks) = (label.volume(), label.first(), line.blocks());
        let (block_bytes, bytes) = (line.block_bytes(), line.bytes());
        write!(
            f,
            "  {name} level {level} date {date} since {since} volume {volume} first {first}, \
             {blocks} blocks of {block_bytes} bytes, {bytes} bytes"
        )
    }
}

fn unentered<R: ClientSystem>(fault: EnterFault, file: ReplacedFile<'_, R>) -> Unentered {
    Unentered {
        fault,
        failure: file.into_failure(),
    }
}

/// Prints which counted volumes of a resumed dump have no line in force in the catalog. Returns
/// whether there are any.
fn report_unsummed<R: ClientSystem, B: Blocks>(
    rt: &R,
    catalog: &Catalog,
    client: &Client<B>,
) -> bool {
    let (mut first, mut last, mut is_missing) = (0, 0, false);
    for count in client.counted() {
        if has_count(catalog, client.run(), *count) {
            report_range(rt, first, last);
            first = 0;
        } else {
            is_missing = true;
            if first == 0 {
                first = count.volume;
            }
            last = count.volume;
        }
    }
    report_range(rt, first, last);
    is_missing
}

/// Prints that these volumes have no line, if `first` is not 0.
fn report_range<R: ClientSystem>(rt: &R, first: u32, last: u32) {
    if first == 0 {
        return;
    }
    let _ = if first == last {
        eprintln!(rt; "no sum of volume {first}")
    } else {
        eprintln!(rt; "no sum of volumes {first} to {last}")
    };
}
