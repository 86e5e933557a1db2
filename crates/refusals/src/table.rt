//! The table of what error numbers mean.
ghost use Rattle.std.specs.Prelude.{IfSome, IsTrue};
ghost use Rattle.refusals.specs.Row.{IsAskedFor, IsRowOf};

use crate::request::TapeRequest;
use crate::row::Row;
use rmt_wire::errno::{EACCES, EBADF, EBUSY, EINVAL, EIO, ENOENT, ENOMEM, ENOSPC, ENXIO};

/// The text for an answer that `rmtd` never gives to a request of `rdump`.
const OTHER_SERVER: &str = "rmtd never gives this answer: check which program listens there";

/// The text for a failure to write on a reel, or to move it.
const NOT_WRITTEN: &str =
    "the server's log has the reason; if its disk is full, move reels from the \
     bin to another disk; if the bin has a reel of that name, rename one of the two";

/// The table. A row for one request is before the row for all others with the same number.
static ROWS: [Row; 22] = [
    Row {
        number: ENOENT,
        asked: Some(TapeRequest::Open),
        before: "the server has no drive ",
        names_drive: true,
        after: ": correct --device, or the arguments of the server",
    },
    Row {
        number: ENOENT,
        asked: None,
        before: OTHER_SERVER,
        names_drive: false,
        after: "",
    },
    Row {
        number: EIO,
        asked: Some(TapeRequest::Open),
        before: "the server could not open the first reel of ",
        names_drive: true,
        after: ": its log has the reason, such as a lock that another program holds",
    },
    Row {
        number: EIO,
        asked: Some(TapeRequest::Space),
        before: "there are too few marks or records, or the drive failed: then the server's log has the reason",
        names_drive: false,
        after: "",
    },
    Row {
        number: EIO,
        asked: Some(TapeRequest::Read),
        before: "the server could not read the reel of ",
        names_drive: true,
        after: ": its log has the reason",
    },
    Row {
        number: EIO,
        asked: Some(TapeRequest::Write),
        before: NOT_WRITTEN,
        names_drive: false,
        after: "",
    },
    Row {
        number: EIO,
        asked: Some(TapeRequest::LongWrite),
        before: NOT_WRITTEN,
        names_drive: false,
        after: "",
    },
    Row {
        number: EIO,
        asked: Some(TapeRequest::WriteMark),
        before: NOT_WRITTEN,
        names_drive: false,
        after: "",
    },
    Row {
        number: EIO,
        asked: Some(TapeRequest::Offline),
        before: NOT_WRITTEN,
        names_drive: false,
        after: "",
    },
    Row {
        number: EIO,
        asked: None,
        before: "the drive ",
        names_drive: true,
        after: " failed: the server's log has the reason",
    },
    Row {
        number: ENXIO,
        asked: Some(TapeRequest::Open),
        before: "no reel is on the stack of ",
        names_drive: true,
        after: ": put one into its folder",
    },
    Row {
        number: ENXIO,
        asked: None,
        before: "the drive ",
        names_drive: true,
        after: " is offline: its reel is in the bin",
    },
    Row {
        number: EBADF,
        asked: None,
        before: OTHER_SERVER,
        names_drive: false,
        after: "",
    },
    Row {
        number: ENOMEM,
        asked: Some(TapeRequest::Read),
        before: "the server is out of memory, or the tape of ",
        names_drive: true,
        after: " begins with a longer record than rdump reads",
    },
    Row {
        number: ENOMEM,
        asked: None,
        before: "the server is out of memory: stop other programs on its machine",
        names_drive: false,
        after: "",
    },
    Row {
        number: EACCES,
        asked: Some(TapeRequest::Open),
        before: "the server has no permission to open ",
        names_drive: true,
        after: ": check as which user it runs",
    },
    Row {
        number: EACCES,
        asked: None,
        before: OTHER_SERVER,
        names_drive: false,
        after: "",
    },
    Row {
        number: EBUSY,
        asked: Some(TapeRequest::Open),
        before: "another session holds ",
        names_drive: true,
        after: ": the server's log says which; wait until the drive is free, or use another one",
    },
    Row {
        number: EBUSY,
        asked: None,
        before: OTHER_SERVER,
        names_drive: false,
        after: "",
    },
    Row {
        number: EINVAL,
        asked: Some(TapeRequest::LongWrite),
        before: "an older server takes blocks of at most 65,536 bytes: use a smaller --block",
        names_drive: false,
        after: "",
    },
    Row {
        number: EINVAL,
        asked: None,
        before: OTHER_SERVER,
        names_drive: false,
        after: "",
    },
    Row {
        number: ENOSPC,
        asked: None,
        before: "the reel of ",
        names_drive: true,
        after: " has too little room: take it away, and put another one on the stack",
    },
];

pub(crate) fn find_row(asked: TapeRequest, number: u32) -> Option<Row>
    ensures { IfSome result (IsRowOf asked number) }
{
    first_of(&ROWS, asked, number)
}

fn first_of(rows: &[Row], asked: TapeRequest, number: u32) -> Option<Row>
    ensures { IfSome result (IsRowOf asked number) }
{
    for row in rows {
        if row.number == number && is_for(row.asked, asked) {
            return Some(*row);
        }
    }
    None
}

fn is_for(row: Option<TapeRequest>, asked: TapeRequest) -> bool
    ensures { IsTrue result → IsAskedFor row asked }
{
    match row {
        Some(request) => request == asked,
        None => true,
    }
}
