//! `rdump dump`.
ghost use Rattle.whole_files.specs.WholeFile.{whole_file};
ghost use Rattle.rdump_dump.specs.Dates.{IsDatesEnd};
ghost use Rattle.rdump_dump.specs.Status.{IsDumpStatus};

use crate::attendant::{Attendant, FailingFile, Kept};
use crate::catalog_file::CatalogFile;
use crate::start::{Dumper, HeldCheckpoint, Start};
use crate::start_fault::StartFault;
use crate::warnings::{report_end, report_first};
use console::ExitStatus;
use dump_client::{Blocks, Client};
use dump_files::Clearing;
use file_medium::FileMedium;
use rdump_args::{DumpLine, STANDARD_INPUT};
use rdump_net::{Conclusion, DumpEnd, SocketPeer, dump_to_end};
use rdump_system::{ClientSystem, report_unwritten};
use rmt_wire::Counted;
use std::fs::File;
use std::io::{self, Write};
use tape::{Medium, MemoryMedium};
use volume_check::Summed;
use whole_files::{INPUT_NAME, ReplacedFile};

/// Dumps a payload, as `rdump dump` does, and enters the dump in the dumpdates file if the
/// arguments ask for that. `terminal` is standard error, if that is a terminal: it shows the base
/// date and the progress.
///
/// A payload that is a regular file or a block device is read block by block during the dump. Any
/// other file, such as a pipe, and a regular file that reports no bytes, is read whole before the
/// dump. Errors are found in this order: the payload, the dumpdates file, the catalog, the clock,
/// the limits of a run, and the checkpoint file.
///
/// The payload `-` is standard input, which is read to its end into a file before the dump. Errors
/// of the other files, and of the limits of a run, are found before that. If the dump keeps a
/// checkpoint, the file stays beside it, and a resumed dump has its payload from there. If no
/// checkpoint was kept, the file is removed.
///
/// If a checkpoint file exists, the dump is resumed from it, with the date and the base date in it.
/// The file is held during the whole dump. It is removed once the dump is complete and, if asked
/// for, entered. It is also removed if the dump is abandoned.
///
/// Returns `Success` if the dump is complete, everything was printed, the dump is entered if asked
/// for, the catalog has all of it, and the checkpoint is removed. Returns `StartupError` if the
/// dump could not begin, and `Abnormal` otherwise.
pub fn run_dump<R: ClientSystem, T: Write + Copy + Drop>(
    rt: &R,
    line: &DumpLine<'_>,
    terminal: Option<T>,
) -> ExitStatus {
    if line.payload != STANDARD_INPUT {
        return status_of(rt, line, dump_payload(rt, line, terminal));
    }
    let line = &DumpLine {
        payload: INPUT_NAME,
        ..*line
    };
    status_of(rt, line, dump_input(rt, line, terminal))
}

fn status_of<R: ClientSystem>(
    rt: &R,
    line: &DumpLine<'_>,
    dumped: Result<ExitStatus, StartFault<'_>>,
) -> ExitStatus {
    match dumped {
        Ok(status) => status,
        Err(fault) => fault.report(rt, line),
    }
}

fn dump_payload<'a, R: ClientSystem, T: Write + Copy + Drop>(
    rt: &'a R,
    line: &DumpLine<'a>,
    terminal: Option<T>,
) -> Result<ExitStatus, StartFault<'a>> {
    let mut start = Start::new(rt, line);
    let (file, is_lasting) = start.open()?;
    if is_lasting {
        return dump_medium(start, FileMedium::new(file), terminal);
    }
    let bytes = start.read(file)?;
    dump_medium(start, MemoryMedium::from_bytes(bytes), terminal)
}

fn dump_medium<'a, R: ClientSystem, M: Medium + Drop, T: Write + Copy + Drop>(
    mut start: Start<'a, R>,
    medium: M,
    terminal: Option<T>,
) -> Result<ExitStatus, StartFault<'a>> {
    let payload = start.blocks(medium)?;
    start.look()?;
    let run = start.run(&payload)?;
    let held = start.checkpoint()?;
    let (client, checkpoint) = start.client(run, payload, held)?;
    let catalog = begin(&start, &client, terminal.is_some())?;
    let kept = Kept {
        dates: start.dates(),
        checkpoint,
        spool: None,
    };
    Ok(run_client(&start, client, kept, catalog, terminal))
}

/// Looks at the other files and at the limits of a run before standard input is read.
fn dump_input<'a, R: ClientSystem, T: Write + Copy + Drop>(
    rt: &'a R,
    line: &DumpLine<'a>,
    terminal: Option<T>,
) -> Result<ExitStatus, StartFault<'a>> {
    let mut start = Start::new(rt, line);
    start.look()?;
    let held = start.checkpoint()?;
    let nothing = start.blocks(MemoryMedium::from_bytes(Vec::new(rt.alloc())))?;
    start.run(&nothing)?;
    let (file, spool) = start.spool(held.as_ref())?;
    match begin_spooled(&mut start, file, held, terminal.is_some()) {
        Ok((client, checkpoint, catalog)) => {
            let kept = Kept {
                dates: start.dates(),
                checkpoint,
                spool,
            };
            Ok(run_client(&start, client, kept, catalog, terminal))
        }
        Err(fault) => {
            if let (Some(spool), true) = (spool, start.has_new_spool) {
                let _ = spool.remove();
            }
            Err(fault)
        }
    }
}

/// The client of a dump, with the files of its checkpoint and its catalog.
type Begun<'a, R, M> = (
    Dumper<M>,
    Option<ReplacedFile<'a, R>>,
    Option<CatalogFile<'a, R>>,
);

fn begin_spooled<'a, R: ClientSystem>(
    start: &mut Start<'a, R>,
    file: File,
    held: Option<HeldCheckpoint<'a, R>>,
    is_at_terminal: bool,
) -> Result<Begun<'a, R, FileMedium>, StartFault<'a>> {
    let payload = start.blocks(FileMedium::new(file))?;
    let run = start.run(&payload)?;
    let (client, checkpoint) = start.client(run, payload, held)?;
    let catalog = begin(start, &client, is_at_terminal)?;
    Ok((client, checkpoint, catalog))
}

/// Prints what is known before the first attempt, and begins the dump in its catalog.
fn begin<'a, R: ClientSystem, B: Blocks>(
    start: &Start<'a, R>,
    client: &Client<B>,
    is_at_terminal: bool,
) -> Result<Option<CatalogFile<'a, R>>, StartFault<'a>> {
    report_first(start, is_at_terminal)?;
    start.catalog(client)
}

fn run_client<'a, R: ClientSystem, B: Blocks + Drop, T: Write + Copy + Drop>(
    start: &Start<'a, R>,
    mut client: Client<Summed<B>>,
    kept: Kept<'a, R, ReplacedFile<'a, R>>,
    catalog: Option<CatalogFile<'a, R>>,
    terminal: Option<T>,
) -> ExitStatus {
    let blocks = client.run().blocks();
    let mut attendant = Attendant::new(start, blocks, kept, catalog, terminal);
    let dumped = run_attended(start, &mut client, &mut attendant, terminal);
    match dumped.conclusion {
        Conclusion::Complete => report_end(start, &client),
        Conclusion::Unkept if start.has_new_spool && client.counted().is_empty() => {
            // There is no checkpoint that could go on with the payload.
            let _ = attendant.remove_spool();
        }
        _ => {}
    }
    dumped.status
}

/// Has a client dump, with this attendant. The status is that of `run_dump`.
#[tactic(auto, using(crate::proofs::Ended::ended_so, crate::proofs::Dates::dates_ended))]
fn run_attended<'a, R: ClientSystem, B: Blocks, T: Write + Copy + Drop, F: FailingFile>(
    start: &Start<'a, R>,
    client: &mut Client<Summed<B>>,
    attendant: &mut Attendant<'_, 'a, R, T, F>,
    terminal: Option<T>,
) -> DumpEnd
    ensures status { IsDumpStatus client.new.at result.status }
    ensures dates { IsDatesEnd (whole_file F.gives F.takes) client.new.at.run result.conclusion result.status
        attendant.old.kept.dates attendant.new.kept.dates }
{
    let (rt, line) = (start.rt, start.line);
    let mut peer = SocketPeer::new(rt, line.to, line.timeout);
    let mut out = Counted::new(Clearing {
        lines: io::writer(rt),
        terminal,
    });
    let end = dump_to_end(rt.alloc(), client, &mut peer, attendant, &mut out);
    if !attendant.has_all() {
        let _ = eprintln!(rt; "catalog not complete");
    }
    if out.failures() > 0 {
        report_unwritten(rt, end.status);
    }
    end
}
