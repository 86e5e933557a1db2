//! Reels that are copied into memory, over a peer with given replies. What a copy holds is the record
//! file whose sum `sha256sum` of coreutils printed.

use super::check_row;
use super::compared::{LABEL, LINE, OTHER_SUM, OTHER_VOLUME, reel};
use super::fake::{FakePeer, Replies};
use super::fixture::DEVICE;
use catalog::Catalog;
use dump_run::VolumeLabel;
use rdump_fetch::{ComparedSink, FetchFault, FetchSink, MemoryCopy, fetch_reel, push_copy_name};
use rdump_net::ReadFault;
use std::alloc::{AllocError, Global};
use std::test::Fail;

/// The requests for a whole reel of two blocks.
const ALL_SENT: &[u8] =
    b"O/dev/st0\n0\nI5\n1\nR262144\nR262144\nR262144\nR262144\nI4\n1\nI5\n1\nI3\n3\nI1\n1\nI6\n1\nC\n";

/// The zero bytes of a label.
const ZEROS: &[u8] = &[0; 966];

/// The replies to the requests for a whole reel.
const WHOLE: &[Replies] = &[&[
    b"A0\n",
    b"A1\n",
    b"A1024\n",
    LABEL,
    ZEROS,
    b"A2\nab",
    b"A2\ncd",
    b"A0\n",
    b"E5\nInput/output error\n",
    b"A1\n",
    b"A3\n",
    b"A1\n",
    b"A1\n",
    b"A0\n",
]];

/// Those for a reel without a mark.
const CUT: &[Replies] = &[&[
    b"A0\n", b"A1\n", b"A1024\n", LABEL, ZEROS, b"A2\nab", b"A2\ncd", b"A0\n", b"A1\n", b"A0\n",
]];

/// Those for a reel with blocks of two lengths.
const UNEQUAL: &[Replies] = &[&[
    b"A0\n", b"A1\n", b"A1024\n", LABEL, ZEROS, b"A2\nab", b"A1\nc",
]];

/// Those for a reel that does not begin with a label.
const FOREIGN: &[Replies] = &[&[b"A0\n", b"A1\n", b"A2\nab"]];

/// The replies of a peer, a catalog, the result of the copy, and whether it is kept.
type Row = (
    &'static [Replies],
    Option<&'static [u8]>,
    Result<(), ReadFault>,
    bool,
);

/// Reels that are whole, with each verdict on their sum, and reels that stay.
static ROWS: [Row; 7] = [
    (WHOLE, None, Ok(()), true),
    (WHOLE, Some(LINE), Ok(()), true),
    (WHOLE, Some(OTHER_VOLUME), Ok(()), true),
    (WHOLE, Some(OTHER_SUM), Err(ReadFault::Stopped), false),
    (CUT, None, Err(ReadFault::NoMark), false),
    (UNEQUAL, None, Err(ReadFault::Stopped), false),
    (FOREIGN, None, Err(ReadFault::Stopped), false),
];

/// Whether a reel is copied as the row says. The requests are all sent only if the copy is kept.
fn is_copied(alloc: Global, row: &Row) -> Result<bool, Fail> {
    let (replies, text, wanted, kept) = *row;
    let catalog = match text {
        Some(text) => Catalog::read(alloc, text).ok(),
        None => None,
    };
    let mut peer = FakePeer::new(alloc, replies);
    let mut sink = ComparedSink::new(FetchSink::new(MemoryCopy::new(alloc)), catalog);
    let result = fetch_reel(alloc, &mut peer, DEVICE, &mut sink);
    let copy = sink.sink().file();
    let is_whole = copy.bytes() == Some(reel(alloc, b"")?.as_slice());
    Ok(
        result == wanted
            && copy.is_kept() == kept
            && sink.sink().is_complete() == kept
            && (is_whole || !kept)
            && (peer.sent.as_slice() == ALL_SENT) == kept,
    )
}

#[test]
fn reels_that_are_copied(rt: HostRuntime) -> Result<(), Fail> {
    for (at, row) in ROWS.iter().enumerate() {
        check_row(&rt, at, is_copied(rt.alloc(), row)?);
    }
    Ok(())
}

#[test]
fn why_a_sink_stopped(rt: HostRuntime) -> Result<(), Fail> {
    let alloc = rt.alloc();
    let mut peer = FakePeer::new(alloc, UNEQUAL);
    let mut sink = ComparedSink::new(FetchSink::new(MemoryCopy::new(alloc)), None);
    let result = fetch_reel(alloc, &mut peer, DEVICE, &mut sink);
    assert!(rt; result == Err(ReadFault::Stopped));
    let fault = sink.sink().fault();
    assert!(rt;
        matches!(
            fault,
            Some(FetchFault::OtherLength {
                bytes: 1,
                before: 2
            })
        )
    );
    let blocks = sink.sink().volume().map(|it| it.blocks);
    assert!(rt; blocks == Some(1));
    sink.sink_mut().forget();
    sink.sink_mut().leave();
    assert!(rt; sink.sink().fault().is_none() && sink.sink().volume().is_none());
    Ok(())
}

/// Returns the name of the copy of volume 3 of a dump of this name.
fn name_of(alloc: Global, name: &str) -> Result<Vec<u8>, AllocError> {
    let mut text = Vec::new(alloc);
    if let Some(label) = VolumeLabel::new(name, 9, 951782400, 0, 3, 7) {
        push_copy_name(&mut text, &label)?;
    }
    Ok(text)
}

#[test]
fn names_of_copies(rt: HostRuntime) -> Result<(), Fail> {
    let alloc = rt.alloc();
    for (name, wanted) in [
        ("/usr", b"%2Fusr.9.951782400.3".as_slice()),
        ("../a%b", b"%2E.%2Fa%25b.9.951782400.3".as_slice()),
        ("a.b", b"a.b.9.951782400.3".as_slice()),
    ] {
        assert!(rt; name_of(alloc, name)?.as_slice() == wanted);
    }
    Ok(())
}
