//! Volumes and record files that are compared with catalogs, and lines that are entered in one.
//! `sha256sum` of coreutils printed the sum of the volume.

ghost use Rattle.std.specs.Prelude.{◌≡◌, length};

use super::check_row;
use super::store::{Held, Kept};
use catalog::{Catalog, CatalogFault, CatalogLine, SumVerdict, push_line};
use dump_client::{Client, ListBlocks, Run};
use dump_files::{
    EnterFault, Entered, begun_line_of, enter_begun, enter_finished, enter_line, finished_line_of,
    has_count, sum_line_of,
};
use dump_run::LABEL_BYTES;
use rdump_fetch::{ComparedSink, FetchSink, MemoryCopy};
use rdump_list::compare_reel;
use rdump_net::{Verdict, VolumeSink};
use std::alloc::{AllocError, Global};
use std::test::Fail;
use tape::MemoryMedium;
use volume_check::Summed;
use whole_files::FileFailed;

/// The lines of the label.
pub(super) const LABEL: &[u8] = b"name /usr\nlevel 0\ndate 951782400\nsince 0\nvolume 1\nfirst 0\n";

/// The record file after the 58 bytes of `LABEL` and its 966 zero bytes.
const BLOCKS: &[u8] = b"\0\x04\0\0\x02\0\0\0ab\x02\0\0\0\x02\0\0\0cd\x02\0\0\0\0\0\0\0";

/// A dump of a payload of four bytes begins.
const BEGUN: &[u8] = b"begun     /usr level 0 date 951782400 since 0: 4 bytes\n";

/// The line of the volume of the blocks `ab` and `cd`.
///
/// `(printf '\0\4\0\0name /usr\nlevel 0\ndate 951782400\nsince 0\nvolume 1\nfirst 0\n';`
/// `head -c 966 /dev/zero; printf '\0\4\0\0\2\0\0\0ab\2\0\0\0\2\0\0\0cd\2\0\0\0\0\0\0\0') |`
/// `sha256sum`
const ALONE: &[u8] = b"\
5c3bcbe871a8f199adcd679cbcf5ab22c312f376e4ac8d763beb9ef0dddb7343\
\x20\x20/usr level 0 date 951782400 since 0 volume 1 first 0, 2 blocks of 2 bytes, 1056 bytes\n";

/// The dump begins, and its volume is counted.
pub(super) const LINE: &[u8] = b"\
begun     /usr level 0 date 951782400 since 0: 4 bytes\n\
5c3bcbe871a8f199adcd679cbcf5ab22c312f376e4ac8d763beb9ef0dddb7343\
\x20\x20/usr level 0 date 951782400 since 0 volume 1 first 0, 2 blocks of 2 bytes, 1056 bytes\n";

/// The same with another sum.
pub(super) const OTHER_SUM: &[u8] = b"\
begun     /usr level 0 date 951782400 since 0: 4 bytes\n\
0c3bcbe871a8f199adcd679cbcf5ab22c312f376e4ac8d763beb9ef0dddb7343\
\x20\x20/usr level 0 date 951782400 since 0 volume 1 first 0, 2 blocks of 2 bytes, 1056 bytes\n";

/// The same with the sum in a line of another volume.
pub(super) const OTHER_VOLUME: &[u8] = b"\
begun     /usr level 0 date 951782400 since 0: 4 bytes\n\
5c3bcbe871a8f199adcd679cbcf5ab22c312f376e4ac8d763beb9ef0dddb7343\
\x20\x20/usr level 0 date 951782400 since 0 volume 2 first 0, 2 blocks of 2 bytes, 1056 bytes\n";

/// The volume is counted twice, last with its own sum.
const BOTH: &[u8] = b"\
begun     /usr level 0 date 951782400 since 0: 4 bytes\n\
0c3bcbe871a8f199adcd679cbcf5ab22c312f376e4ac8d763beb9ef0dddb7343\
\x20\x20/usr level 0 date 951782400 since 0 volume 1 first 0, 2 blocks of 2 bytes, 1056 bytes\n\
5c3bcbe871a8f199adcd679cbcf5ab22c312f376e4ac8d763beb9ef0dddb7343\
\x20\x20/usr level 0 date 951782400 since 0 volume 1 first 0, 2 blocks of 2 bytes, 1056 bytes\n";

/// The volume is counted twice, last with another sum.
const VOID: &[u8] = b"\
begun     /usr level 0 date 951782400 since 0: 4 bytes\n\
5c3bcbe871a8f199adcd679cbcf5ab22c312f376e4ac8d763beb9ef0dddb7343\
\x20\x20/usr level 0 date 951782400 since 0 volume 1 first 0, 2 blocks of 2 bytes, 1056 bytes\n\
0c3bcbe871a8f199adcd679cbcf5ab22c312f376e4ac8d763beb9ef0dddb7343\
\x20\x20/usr level 0 date 951782400 since 0 volume 1 first 0, 2 blocks of 2 bytes, 1056 bytes\n";

/// The dump begins anew after its volume was counted.
const ANEW: &[u8] = b"\
begun     /usr level 0 date 951782400 since 0: 4 bytes\n\
5c3bcbe871a8f199adcd679cbcf5ab22c312f376e4ac8d763beb9ef0dddb7343\
\x20\x20/usr level 0 date 951782400 since 0 volume 1 first 0, 2 blocks of 2 bytes, 1056 bytes\n\
begun     /usr level 0 date 951782400 since 0: 4 bytes\n";

/// The dump is finished.
const FINISHED: &[u8] = b"\
begun     /usr level 0 date 951782400 since 0: 4 bytes\n\
5c3bcbe871a8f199adcd679cbcf5ab22c312f376e4ac8d763beb9ef0dddb7343\
\x20\x20/usr level 0 date 951782400 since 0 volume 1 first 0, 2 blocks of 2 bytes, 1056 bytes\n\
finished  /usr level 0 date 951782400 since 0: 1 volumes, 2 blocks of 2 bytes, 4 bytes\n";

/// A catalog, and the result of a comparison with it.
type Row = (&'static [u8], SumVerdict);

/// Catalogs that have the volume's sum, that have another one, in which the dump begins anew or the
/// volume is written again, and that have no line of it.
static ROWS: [Row; 8] = [
    (LINE, SumVerdict::Equal),
    (BOTH, SumVerdict::Equal),
    (OTHER_SUM, SumVerdict::Differs),
    (ANEW, SumVerdict::Anew),
    (VOID, SumVerdict::Void),
    (OTHER_VOLUME, SumVerdict::Unknown),
    (ALONE, SumVerdict::Unknown),
    (b"", SumVerdict::Unknown),
];

/// A sink of copies in memory that compares volumes.
type Sink = ComparedSink<FetchSink<MemoryCopy>>;

/// Makes a sink that compares volumes with the lines of `catalog`, if given.
fn sink(alloc: Global, catalog: Option<Catalog>) -> Sink {
    ComparedSink::new(FetchSink::new(MemoryCopy::new(alloc)), catalog)
}

/// Gives a sink the volume. Returns whether the sink completed, or None if it stopped before.
fn give(sink: &mut Sink) -> Option<bool> {
    let mut record = [0; LABEL_BYTES];
    record.get_mut(..LABEL.len())?.copy_from_slice(LABEL);
    if sink.label(&record) == Verdict::Stop {
        return None;
    }
    sink.block(0, b"ab").ok()?;
    sink.block(1, b"cd").ok()?;
    sink.mark();
    Some(sink.complete().is_ok())
}

/// Whether a volume that is given to a sink is compared as the row says.
fn is_compared(alloc: Global, row: &Row) -> Result<bool, Fail> {
    let (text, wanted) = *row;
    let Ok(catalog) = Catalog::read(alloc, text) else {
        return Ok(false);
    };
    let mut sink = sink(alloc, Some(catalog));
    let completes = matches!(wanted, SumVerdict::Equal | SumVerdict::Unknown);
    Ok(
        give(&mut sink) == Some(completes)
            && sink.verdict() == Some(wanted)
            && sink.sink().is_complete() == completes,
    )
}

#[test]
fn volumes_that_are_compared(rt: HostRuntime) -> Result<(), Fail> {
    for (at, row) in ROWS.iter().enumerate() {
        check_row(&rt, at, is_compared(rt.alloc(), row)?);
    }
    Ok(())
}

#[test]
fn a_volume_without_a_catalog(rt: HostRuntime) -> Result<(), Fail> {
    let mut sink = sink(rt.alloc(), None);
    assert!(rt; give(&mut sink) == Some(true) && sink.verdict().is_none());
    sink.sink_mut().leave();
    let copy = reel(rt.alloc(), b"")?;
    assert!(rt; sink.into_sink().file().bytes() == Some(copy.as_slice()));
    Ok(())
}

/// Returns a record file of the volume, and then the bytes `more`.
pub(super) fn reel(alloc: Global, more: &[u8]) -> Result<Vec<u8>, AllocError> {
    let mut bytes = Vec::from_slice(alloc, b"\0\x04\0\0")?;
    bytes.extend_from_slice(LABEL)?;
    bytes.resize(LABEL_BYTES + 4, 0)?;
    bytes.extend_from_slice(BLOCKS)?;
    bytes.extend_from_slice(more)?;
    Ok(bytes)
}

/// Compares the record file of the volume and `more` with a catalog. Returns None if a call
/// fails.
fn verdict(
    alloc: Global,
    text: &[u8],
    more: &[u8],
) -> Result<Option<Option<SumVerdict>>, AllocError> {
    let mut medium = MemoryMedium::from_bytes(reel(alloc, more)?);
    let Ok(catalog) = Catalog::read(alloc, text) else {
        return Ok(None);
    };
    match compare_reel(&mut medium, &mut [0; 100], &catalog) {
        Ok((contents, verdict)) if contents.records == 3 => Ok(Some(verdict)),
        _ => Ok(None),
    }
}

#[test]
fn record_files_that_are_compared(rt: HostRuntime) -> Result<(), Fail> {
    for (at, row) in ROWS.iter().enumerate() {
        let (text, wanted) = *row;
        check_row(
            &rt,
            at,
            verdict(rt.alloc(), text, b"")? == Some(Some(wanted)),
        );
    }
    assert!(rt; verdict(rt.alloc(), LINE, b"\0\0\0\0")? == Some(None));
    assert!(rt; verdict(rt.alloc(), LINE, b"\x01")? == Some(None));
    Ok(())
}

/// Returns a client that has counted its first volume. The server's replies say that each request
/// was done, and that the reel was empty.
fn counted_client(alloc: Global, payload: Vec<u8>) -> Option<Client<Summed<ListBlocks>>>
    requires { length payload.items ≡ 4 }
{
    let run = Run::new(b"/dev/st0", "/usr", 0, 951782400, 0, 2, 2).ok()?;
    let source = Summed::new(ListBlocks::new(payload, 2, 2), true);
    let mut client = Client::new(alloc, run, source).ok()?;
    client.start().ok()?;
    answer_all(alloc, &mut client);
    Some(client)
}

/// Replies to each request of a client's attempt.
fn answer_all(alloc: Global, client: &mut Client<Summed<ListBlocks>>) {
    let mut asked = Vec::new(alloc);
    for _ in 0..10 {
        asked.clear();
        if let Ok(true) = client.next_request(&mut asked) {
            client.sent(&asked);
            client.feed(reply_to(&asked));
        }
    }
}

/// Returns the reply to a request that was done.
fn reply_to(request: &[u8]) -> &'static [u8] {
    if request.starts_with(b"W1024\n") {
        b"A1024\n"
    } else if request.starts_with(b"W2\n") {
        b"A2\n"
    } else if request.starts_with(b"I") {
        b"A1\n"
    } else {
        b"A0\n"
    }
}

/// Returns a client that has counted the volume.
fn client(alloc: Global) -> Result<Client<Summed<ListBlocks>>, Fail> {
    let payload = Vec::from_slice(alloc, b"abcd")?;
    if payload.len() != 4 {
        return Err(Fail::new("the payload has another size"));
    }
    match counted_client(alloc, payload) {
        Some(client) => Ok(client),
        None => Err(Fail::new("no client")),
    }
}

/// Returns the line of the volume.
fn line(client: &Client<Summed<ListBlocks>>) -> Option<CatalogLine> {
    let count = *client.counted().first()?;
    Some(CatalogLine::Volume(sum_line_of(client, count)?))
}

#[test]
fn the_lines_of_a_dump(rt: HostRuntime) -> Result<(), Fail> {
    let client = client(rt.alloc())?;
    let mut text = Vec::new(rt.alloc());
    push_line(&mut text, &CatalogLine::Begun(begun_line_of(&client, 4)))?;
    push_line(&mut text, &line(&client).expect(&rt, "a line"))?;
    let finished = finished_line_of(&client, 4).expect(&rt, "a line");
    push_line(&mut text, &CatalogLine::Finished(finished))?;
    assert!(rt; text.as_slice() == FINISHED);
    Ok(())
}

/// Whether a catalog has a line in force for the first volume of the client.
fn has_first(alloc: Global, text: &[u8], client: &Client<Summed<ListBlocks>>) -> Option<bool> {
    let catalog = Catalog::read(alloc, text).ok()?;
    let count = *client.counted().first()?;
    Some(has_count(&catalog, client.run(), count))
}

#[test]
fn counts_that_have_a_line(rt: HostRuntime) -> Result<(), Fail> {
    let client = client(rt.alloc())?;
    for text in [LINE, OTHER_SUM, VOID, FINISHED] {
        assert!(rt; has_first(rt.alloc(), text, &client) == Some(true));
    }
    for text in [ALONE, OTHER_VOLUME, ANEW, b""] {
        assert!(rt; has_first(rt.alloc(), text, &client) == Some(false));
    }
    Ok(())
}

/// The result of reading a catalog, whether it can be replaced, the result of entering a line, and
/// the text that replaces the file.
type Row3 = (Held, bool, Result<Entered, EnterFault>, &'static [u8]);

/// Catalogs in which the line of the volume is entered, if the dump began with one line: one with
/// that line, with another line of the volume, with the same, and with the same that is void. Then
/// one in which the dump did not begin, one in which it began twice, one that cannot be read, one
/// that cannot be replaced, and a bad one.
static VOLUMES: [Row3; 9] = [
    (Ok(Some(BEGUN)), true, Ok(Entered::Added), LINE),
    (Ok(Some(OTHER_SUM)), true, Ok(Entered::Added), BOTH),
    (Ok(Some(LINE)), true, Ok(Entered::There), b""),
    (Ok(Some(BOTH)), true, Ok(Entered::There), b""),
    (Ok(None), true, Ok(Entered::Another), b""),
    (Ok(Some(ANEW)), true, Ok(Entered::Another), b""),
    (Err(FileFailed), true, Err(EnterFault::Unread), b""),
    (Ok(Some(BEGUN)), false, Err(EnterFault::Unwritten), b""),
    (
        Ok(Some(b"a line\n")),
        true,
        Err(EnterFault::Catalog(CatalogFault::BadLine(1))),
        b"",
    ),
];

/// Whether entering the line goes as the row says.
fn enters(alloc: Global, line: &CatalogLine, row: &Row3) -> bool {
    let (held, takes, wanted, put) = *row;
    let mut store = Kept::new(alloc, held, takes);
    enter_line(alloc, &mut store, 1, line) == wanted && store.put.as_slice() == put
}

#[test]
fn lines_that_are_entered_or_not(rt: HostRuntime) -> Result<(), Fail> {
    let line = line(&client(rt.alloc())?).expect(&rt, "a line");
    for (at, row) in VOLUMES.iter().enumerate() {
        check_row(&rt, at, enters(rt.alloc(), &line, row));
    }
    Ok(())
}

/// Catalogs in which the dump is finished: one with its line, one without it, and one that says it
/// already.
static ENDS: [Row3; 4] = [
    (Ok(Some(LINE)), true, Ok(Entered::Added), FINISHED),
    (Ok(Some(BEGUN)), true, Ok(Entered::Uncovered), b""),
    (Ok(Some(FINISHED)), true, Ok(Entered::There), b""),
    (Err(FileFailed), true, Err(EnterFault::Unread), b""),
];

/// Whether entering that the dump is finished goes as the row says.
fn finishes(alloc: Global, client: &Client<Summed<ListBlocks>>, row: &Row3) -> Option<bool> {
    let (held, takes, wanted, put) = *row;
    let mut store = Kept::new(alloc, held, takes);
    let line = finished_line_of(client, 4)?;
    let entered = enter_finished(alloc, &mut store, 1, client, line);
    Some(entered == wanted && store.put.as_slice() == put)
}

#[test]
fn dumps_that_are_finished_or_not(rt: HostRuntime) -> Result<(), Fail> {
    let client = client(rt.alloc())?;
    for (at, row) in ENDS.iter().enumerate() {
        check_row(&rt, at, finishes(rt.alloc(), &client, row) == Some(true));
    }
    Ok(())
}

/// The result of entering that the dump begins in such a file, and the text that replaces it.
fn begins(alloc: Global, held: Held, put: &[u8]) -> Result<Result<usize, EnterFault>, Fail> {
    let mut store = Kept::new(alloc, held, true);
    let entered = enter_begun(alloc, &mut store, begun_line_of(&client(alloc)?, 4));
    match store.put.as_slice() == put {
        true => Ok(entered),
        false => Err(Fail::new("another text")),
    }
}

#[test]
fn dumps_that_begin(rt: HostRuntime) -> Result<(), Fail> {
    assert!(rt; begins(rt.alloc(), Ok(None), BEGUN)? == Ok(1));
    assert!(rt; begins(rt.alloc(), Ok(Some(LINE)), ANEW)? == Ok(2));
    assert!(rt; begins(rt.alloc(), Err(FileFailed), b"")? == Err(EnterFault::Unread));
    Ok(())
}
