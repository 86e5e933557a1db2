//! A run to its end, with all kinds of lines that allocate memory.

use super::fixture::check;
use std::test::Fail;

const TEXT: &[u8] = b"drive /dev/st0 3100 r1\n\
run /dev/st0 /usr 0 951782400 0 1024 1\n\
connect\n\
pump 1 11\n\
save\n\
restart-client\n\
arrange /dev/st0 r1\n\
stranger\n\
says 2 4f2f6465762f7374300a320a\n\
pump 2 11\n\
enter\n";

const PRINTED: &[u8] = b"reel r1 R1024 R1024 M\n\
stack /dev/st0 r1\n\
bin\n\
counted 1 1 0 1 r1\n\
dumpdates\n\
/usr                             0 Tue Feb 29 00:00:00 2000\n";

#[test]
fn ample_memory(rt: HostRuntime) -> Result<(), Fail> {
    check(rt.alloc(), TEXT, PRINTED, 0)
}
