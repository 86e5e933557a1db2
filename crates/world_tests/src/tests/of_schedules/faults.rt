//! Streams that fail.

use rmt_wire::Counted;
use rsim_schedule::schedule;
use std::io::{self, ErrorKind, Write};

/// A stream that accepts `left` writes, and then fails.
#[derive(Drop)]
struct Failing<'a> {
    taken: &'a mut Vec<u8>,
    left: u32,
}

impl Write for Failing<'_> {
    fn write(&mut self, bytes: &[u8]) -> io::Result<usize> {
        if self.left == 0 {
            return Err(ErrorKind::Other.into());
        }
        self.left -= 1;
        self.taken.extend_from_slice(bytes)?;
        Ok(bytes.len())
    }

    fn flush(&mut self) -> io::Result<()> {
        Ok(())
    }
}

/// Two attempts that fail, and a faulty line.
const TEXT: &[u8] = b"drive /dev/st0 1040 r1\n\
run /dev/st0 /usr 0 951782400 0 1024 1\n\
connect\n\
pump 1 11\n\
end-server 1\n\
retry\n\
connect\n\
pump 2 11\n\
connect\n";

/// A schedule, the number of writes that succeed, what they print, and then the exit status and the
/// number of failures. The first schedule prints in three writes.
static CASES: [(&[u8], u32, &[u8], (u8, u64)); 5] = [
    (TEXT, 0, b"", (3, 1)),
    (TEXT, 1, b"volume 1 failed: ReelTooSmall\n", (3, 1)),
    (
        TEXT,
        2,
        b"volume 1 failed: ReelTooSmall\nvolume 1 failed: ReelTooSmall\n",
        (3, 1),
    ),
    (
        TEXT,
        3,
        b"volume 1 failed: ReelTooSmall\nvolume 1 failed: ReelTooSmall\nline 9: not possible\n",
        (1, 0),
    ),
    (b"drive d 0", 0, b"", (3, 1)),
];

#[test]
fn nothing_follows_a_failed_write(rt: HostRuntime) {
    for (text, left, printed, ended) in &CASES {
        let mut taken = Vec::new(rt.alloc());
        let mut out = Counted::new(Failing {
            taken: &mut taken,
            left: *left,
        });
        let status = schedule(rt.alloc(), text, &mut out).code();
        assert!(rt; (status, out.failures()) == *ended);
        drop(out);
        assert_eq!(rt; taken.as_slice(), *printed);
    }
}
