//! Whole schedules, each with a failure of its own.

use super::fixture::{Case, check_cases};
use std::test::Fail;

static RUNS: [Case; 17] = [
    // The reply to MTOFFL is lost: the first reel has a whole volume and is not counted.
    Case {
        text: b"drive /dev/st0 3100 r1 r2 r3\n\
    run /dev/st0 /usr 0 951782400 0 1024 3\n\
    connect\n\
    pump 1 9\n\
    send\n\
    to-server 1 all\n\
    serve 1\n\
    cut 1\n\
    end-client 1\n\
    end-server 1\n\
    retry\n\
    connect\n\
    pump 2 11\n\
    connect\n\
    pump 3 11\n\
    enter\n",
        printed: b"volume 1 failed: ConnectionEnded\n\
    reel r1 R1024 R1024 R1024 M\n\
    reel r2 R1024 R1024 R1024 M\n\
    reel r3 R1024 R1024 M\n\
    stack /dev/st0\n\
    bin r1 r2 r3\n\
    counted 1 1 0 2 r2\n\
    counted 1 2 2 1 r3\n\
    dumpdates\n\
    /usr                             0 Tue Feb 29 00:00:00 2000\n",
        status: 0,
    },
    // The session of a connection that was cut still holds the drive.
    Case {
        text: b"drive /dev/st0 3100 r1 r2\n\
    run /dev/st0 /usr 0 951782400 0 1024 3\n\
    connect\n\
    pump 1 5\n\
    cut 1\n\
    end-client 1\n\
    retry\n\
    connect\n\
    pump 2 1\n\
    end-server 1\n\
    retry\n\
    connect\n\
    pump 3 11\n",
        printed: b"volume 1 failed: ConnectionEnded\n\
    volume 1 failed: Refused 16\n\
    reel r1 R1024 R1024 R1024 M\n\
    reel r2\n\
    stack /dev/st0 r2\n\
    bin r1\n\
    counted 1 1 0 2 r1\n\
    dumpdates\n",
        status: 0,
    },
    // A reel has room for the label alone.
    Case {
        text: b"drive /dev/st0 1040 r1\n\
    run /dev/st0 /usr 0 951782400 0 1024 1\n\
    connect\n\
    pump 1 11\n",
        printed: b"volume 1 failed: ReelTooSmall\n\
    reel r1 R1024\n\
    stack /dev/st0 r1\n\
    bin\n\
    dumpdates\n",
        status: 0,
    },
    // A run without blocks is one volume of a label and a mark.
    Case {
        text: b"drive /dev/st0 1040 r1\n\
    run /dev/st0 /usr 0 951782400 0 1024 0\n\
    connect\n\
    pump 1 11\n",
        printed: b"reel r1 R1024 M\n\
    stack /dev/st0\n\
    bin r1\n\
    counted 1 1 0 0 r1\n\
    dumpdates\n",
        status: 0,
    },
    // A write fails after the record was written.
    Case {
        text: b"drive /dev/st0 3100 r1\n\
    run /dev/st0 /usr 0 951782400 0 1024 1\n\
    connect\n\
    pump 1 4\n\
    send\n\
    to-server 1 all\n\
    serve 1 written 1\n\
    to-client 1 all\n",
        printed: b"volume 1 failed: Refused 5\n\
    reel r1 R1024\n\
    stack /dev/st0 r1\n\
    bin\n\
    dumpdates\n",
        status: 0,
    },
    // An injected fault lets more entries be written than a 32-bit number can count: all are
    // written.
    Case {
        text: b"drive /dev/st0 3100 r1\n\
    run /dev/st0 /usr 0 951782400 0 1024 1\n\
    connect\n\
    pump 1 4\n\
    send\n\
    to-server 1 all\n\
    serve 1 written 4294967296\n",
        printed: b"reel r1 R1024\n\
    stack /dev/st0 r1\n\
    bin\n\
    dumpdates\n",
        status: 0,
    },
    // A run is abandoned, and the next one is started.
    Case {
        text: b"drive /dev/st0 3100 r1\n\
    run /dev/st0 /usr 0 951782400 0 1024 1\n\
    connect\n\
    cut 1\n\
    end-client 1\n\
    abandon\n\
    run /dev/st0 /home 0 951782400 0 1024 1\n\
    connect\n\
    pump 2 11\n\
    enter\n",
        printed: b"volume 1 failed: ConnectionEnded\n\
    reel r1 R1024 R1024 M\n\
    stack /dev/st0\n\
    bin r1\n\
    counted 2 1 0 1 r1\n\
    dumpdates\n\
    /home                            0 Tue Feb 29 00:00:00 2000\n",
        status: 0,
    },
    // A stranger opens the drive, and sends a part of a write.
    Case {
        text: b"drive /dev/st0 3100 r1\n\
    stranger\n\
    says 1 4f2f6465762f7374300a320a57350a68656c\n\
    pump 1 11\n\
    cut 1\n\
    end-server 1\n",
        printed: b"reel r1\n\
    stack /dev/st0 r1\n\
    bin\n\
    dumpdates\n",
        status: 0,
    },
    // A reel that was counted is put on the stack again, and a stranger writes on it.
    Case {
        text: b"drive /dev/st0 3100 r1\n\
    run /dev/st0 /usr 0 951782400 0 1024 1\n\
    connect\n\
    pump 1 11\n\
    arrange /dev/st0 r1\n\
    stranger\n\
    says 2 4f2f6465762f7374300a320a57310a78\n\
    pump 2 11\n\
    cut 2\n\
    end-server 2\n",
        printed: b"reel r1 R1\n\
    stack /dev/st0 r1\n\
    bin\n\
    counted 1 1 0 1 r1\n\
    dumpdates\n",
        status: 0,
    },
    // The server restarts in the middle of a volume.
    Case {
        text: b"drive /dev/st0 3100 r1 r2\n\
    run /dev/st0 /usr 0 951782400 0 1024 3\n\
    connect\n\
    pump 1 5\n\
    restart-server\n\
    end-client 1\n\
    retry\n\
    connect\n\
    pump 2 11\n\
    connect\n\
    pump 3 11\n",
        printed: b"volume 1 failed: ConnectionEnded\n\
    reel r1 R1024 R1024 R1024 M\n\
    reel r2 R1024 R1024 M\n\
    stack /dev/st0\n\
    bin r1 r2\n\
    counted 1 1 0 2 r1\n\
    counted 1 2 2 1 r2\n\
    dumpdates\n",
        status: 0,
    },
    // The client resumes the run that was saved after its first count.
    Case {
        text: b"drive /dev/st0 3100 r1 r2 r3\n\
    run /dev/st0 /usr 0 951782400 0 1024 3\n\
    connect\n\
    pump 1 11\n\
    save\n\
    connect\n\
    pump 2 6\n\
    restart-client\n\
    end-server 2\n\
    connect\n\
    pump 3 11\n\
    enter\n",
        printed: b"reel r1 R1024 R1024 R1024 M\n\
    reel r2 R1024 R1024 M\n\
    reel r3\n\
    stack /dev/st0 r3\n\
    bin r1 r2\n\
    counted 1 1 0 2 r1\n\
    counted 1 2 2 1 r2\n\
    dumpdates\n\
    /usr                             0 Tue Feb 29 00:00:00 2000\n",
        status: 0,
    },
    // The same run, which was not saved.
    Case {
        text: b"drive /dev/st0 3100 r1 r2 r3\n\
    run /dev/st0 /usr 0 951782400 0 1024 3\n\
    connect\n\
    pump 1 11\n\
    connect\n\
    pump 2 6\n\
    restart-client\n\
    end-server 2\n\
    connect\n\
    pump 3 11\n\
    enter\n",
        printed: b"line 9: not possible\n",
        status: 1,
    },
    // The run was saved before any count, so the first volume is written and counted twice.
    Case {
        text: b"drive /dev/st0 3100 r1 r2 r3\n\
    run /dev/st0 /usr 0 951782400 0 1024 3\n\
    save\n\
    connect\n\
    pump 1 11\n\
    restart-client\n\
    connect\n\
    pump 2 11\n\
    connect\n\
    pump 3 11\n\
    enter\n",
        printed: b"reel r1 R1024 R1024 R1024 M\n\
    reel r2 R1024 R1024 R1024 M\n\
    reel r3 R1024 R1024 M\n\
    stack /dev/st0\n\
    bin r1 r2 r3\n\
    counted 1 1 0 2 r1\n\
    counted 1 1 0 2 r2\n\
    counted 1 2 2 1 r3\n\
    dumpdates\n\
    /usr                             0 Tue Feb 29 00:00:00 2000\n",
        status: 0,
    },
    // A counted reel is put on the stack again: the run that counted it does not write on it.
    Case {
        text: b"drive /dev/st0 3100 r1 r2\n\
    run /dev/st0 /usr 0 951782400 0 1024 3\n\
    connect\n\
    pump 1 11\n\
    arrange /dev/st0 r1 r2\n\
    connect\n\
    pump 2 9\n\
    end-server 2\n\
    retry\n\
    arrange /dev/st0 r2\n\
    connect\n\
    pump 3 9\n",
        printed: b"volume 2 failed: CountedReel 1\n\
    reel r1 R1024 R1024 R1024 M\n\
    reel r2 R1024 R1024 M\n\
    stack /dev/st0\n\
    bin r1 r2\n\
    counted 1 1 0 2 r1\n\
    counted 1 2 2 1 r2\n\
    dumpdates\n",
        status: 0,
    },
    // A run that was entered cannot be saved.
    Case {
        text: b"drive /dev/st0 3100 r1\n\
    run /dev/st0 /usr 0 951782400 0 1024 1\n\
    connect\n\
    pump 1 11\n\
    enter\n\
    save\n",
        printed: b"line 6: not possible\n",
        status: 1,
    },
    // A run that was abandoned cannot be saved.
    Case {
        text: b"drive /dev/st0 3100 r1\n\
    run /dev/st0 /usr 0 951782400 0 1024 1\n\
    connect\n\
    cut 1\n\
    end-client 1\n\
    abandon\n\
    save\n",
        printed: b"volume 1 failed: ConnectionEnded\n\
    line 7: not possible\n",
        status: 1,
    },
    // If a run is abandoned, its saved state is dropped.
    Case {
        text: b"drive /dev/st0 3100 r1\n\
    run /dev/st0 /usr 0 951782400 0 1024 1\n\
    save\n\
    connect\n\
    cut 1\n\
    end-client 1\n\
    abandon\n\
    restart-client\n\
    connect\n",
        printed: b"volume 1 failed: ConnectionEnded\n\
    line 9: not possible\n",
        status: 1,
    },
];

#[test]
fn whole_schedules(rt: HostRuntime) -> Result<(), Fail> {
    check_cases(rt.alloc(), &RUNS)
}
