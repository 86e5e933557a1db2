//! Messages before the first attempt and at the end of a dump, besides faults.

use crate::shell_word::ShellWord;
use crate::start::Start;
use crate::start_fault::StartFault;
use console::plain;
use dump_client::{Blocks, Client};
use dump_files::date_text;
use dumpdates::LAST_SECOND;
use rdump_system::ClientSystem;
use std::io::ErrorKind;
use std::time::{SystemTime, UNIX_EPOCH};
use whole_files::{PayloadChange, PayloadLook, ReplacedFile};

/// Prints what is known before the first attempt:
///
/// - that the payload is empty
/// - the base date, if standard error is a terminal
/// - that the base date is after the date of the dump
/// - that an entry of a later date is to be replaced
/// - why the dump could not be entered now
pub(crate) fn report_first<'a, R: ClientSystem>(
    start: &Start<'a, R>,
    is_at_terminal: bool,
) -> Result<(), StartFault<'a>> {
    let (rt, line) = (start.rt, &start.line);
    let date = line.date.unwrap_or(0);
    if start.bytes == 0 {
        let path = plain(line.payload);
        let _ = eprintln!(rt; "rdump: {path}: it is empty: the dump has no block");
    }
    if is_at_terminal {
        report_since(rt, start.since)?;
    }
    if start.since > date {
        let since = text_of(rt, start.since)?;
        let _ = eprintln!(rt; "rdump: the base date, {since}, is after the date of this dump");
    }
    if line.update {
        if start.replaced > date {
            report_replaced(start)?;
        }
        report_dates_fault(rt, line.dumpdates)?;
    }
    Ok(())
}

fn report_since<'a, R: ClientSystem>(rt: &R, since: u64) -> Result<(), StartFault<'a>> {
    if since == 0 {
        let _ = eprintln!(rt; "since the epoch: every block counts as new");
        return Ok(());
    }
    let date = text_of(rt, since)?;
    let _ = eprintln!(rt; "since {date}");
    Ok(())
}

fn report_replaced<'a, R: ClientSystem>(start: &Start<'a, R>) -> Result<(), StartFault<'a>> {
    let (rt, line) = (start.rt, &start.line);
    let date = text_of(rt, start.replaced)?;
    let (path, name, level) = (plain(line.dumpdates), plain(line.fs), line.level);
    let _ = eprintln!(rt;
        "rdump: {path}: the entry of {name} level {level} that this dump is to replace has a later date, {date}"
    );
    Ok(())
}

fn report_dates_fault<'a, R: ClientSystem>(rt: &R, dumpdates: &str) -> Result<(), StartFault<'a>> {
    match ReplacedFile::new(rt, rt.alloc(), dumpdates).find_fault() {
        None => Ok(()),
        Some(error) if error.kind() == ErrorKind::OutOfMemory => Err(StartFault::OutOfMemory),
        Some(error) => {
            let dumpdates = plain(dumpdates);
            let _ = eprintln!(rt; "rdump: {dumpdates}: {error}: the dump can't be entered");
            Ok(())
        }
    }
}

/// Prints how much of a resumed dump is counted.
pub(crate) fn report_going_on<R: ClientSystem, B: Blocks>(rt: &R, client: &Client<B>) {
    let (volumes, blocks) = (client.counted().len(), client.run().blocks());
    let (_, counted) = client.checkpoint();
    let _ = eprintln!(rt; "going on: {volumes} volumes, {counted} blocks of {blocks} counted");
}

/// Prints that the payload was written to after the checkpoint at `path`, and returns true, if so.
/// `kept` is when the checkpoint was written.
pub(crate) fn report_younger<'a, R: ClientSystem>(
    start: &Start<'a, R>,
    path: &str,
    kept: Option<SystemTime>,
) -> Result<bool, StartFault<'a>> {
    let (Some(look), Some(kept)) = (&start.look, kept) else {
        return Ok(false);
    };
    match look.modified() {
        Some(written) if written > kept => {
            let (written, kept) = (time_text(start.rt, written)?, time_text(start.rt, kept)?);
            let (payload, path) = (plain(start.line.payload), plain(path));
            let _ = eprintln!(start.rt;
                "rdump: {payload}: it is younger than the checkpoint: it was written to at {written}, and {path} at {kept}"
            );
            Ok(true)
        }
        _ => Ok(false),
    }
}

/// Returns a time as text, in UTC. A time before 1970 becomes the first second of 1970, and one
/// after the year 9999 the last second of 9999.
fn time_text<'a, R: ClientSystem>(rt: &R, time: SystemTime) -> Result<String, StartFault<'a>> {
    let seconds = time.duration_since(UNIX_EPOCH).map_or(0, |it| it.as_secs());
    text_of(rt, seconds.min(LAST_SECOND))
}

/// Returns the text of a date. Fails only if an allocation fails, as each date of an entry has a
/// text.
fn text_of<'a, R: ClientSystem>(rt: &R, date: u64) -> Result<String, StartFault<'a>> {
    match date_text(rt.alloc(), date) {
        Some(text) => Ok(text),
        None => Err(StartFault::OutOfMemory),
    }
}

/// Prints what a restore of a complete dump needs, and whether its payload changed.
pub(crate) fn report_end<R: ClientSystem, B: Blocks>(start: &Start<'_, R>, client: &Client<B>) {
    let (rt, line) = (start.rt, &start.line);
    let (blocks, bytes) = (client.run().blocks(), start.bytes);
    let (to, device) = (ShellWord(line.to), ShellWord(line.device));
    let _ = eprintln!(rt;
        "to restore: {blocks} blocks, {bytes} bytes: rdump fetch --to {to} --device {device} --into FOLDER"
    );
    if let Some(look) = &start.look {
        report_change(rt, line.payload, look);
    }
}

fn report_change<R: Eprint>(rt: &R, path: &str, look: &PayloadLook) {
    let path = plain(path);
    let _ = match look.change() {
        Ok(None) => Ok(()),
        Ok(Some(PayloadChange::Length(was, is))) => {
            eprintln!(rt;
                "rdump: {path}: it changed while it was dumped: it had {was} bytes, and has {is}"
            )
        }
        Ok(Some(PayloadChange::Time)) => {
            eprintln!(rt; "rdump: {path}: it changed while it was dumped: it was written to")
        }
        Err(error) => {
            eprintln!(rt;
                "rdump: {path}: whether it changed while it was dumped cannot be told: {error}"
            )
        }
    };
}
