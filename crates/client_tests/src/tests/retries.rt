//! Answers that are read from a stream, and the tries of a dump without an operator.

use super::check_row;
use dump_client::AttemptFault;
use rdump_net::{Answers, Reply, Retries, Setback};
use remote_tape::{CallFault, TapeCause, TapeFault, TapeRequest};

#[test]
fn answers(rt: HostRuntime) {
    let said: &[u8] = b"yes\nyes!\n\nyes";
    let mut answers = Answers::new(said);
    assert!(rt; answers.answer() == Reply::Retry);
    assert!(rt; answers.answer() == Reply::Abandon);
    assert!(rt; answers.answer() == Reply::Abandon);
    assert!(rt; answers.answer() == Reply::Retry);
    assert!(rt; answers.answer() == Reply::Abandon);
}

/// The faults of attempts, and whether a dump tries again.
static ATTEMPTS: [(AttemptFault, bool); 16] = [
    (AttemptFault::Refused(2), false),
    (AttemptFault::Refused(5), true),
    (AttemptFault::Refused(6), true),
    (AttemptFault::Refused(9), false),
    (AttemptFault::Refused(12), true),
    (AttemptFault::Refused(13), false),
    (AttemptFault::Refused(16), true),
    (AttemptFault::Refused(22), false),
    (AttemptFault::Refused(28), true),
    (AttemptFault::Botched, false),
    (AttemptFault::ConnectionEnded, true),
    (AttemptFault::ShortWrite, false),
    (AttemptFault::ReelTooSmall, false),
    (AttemptFault::SourceFault, false),
    (AttemptFault::OutOfMemory, true),
    (AttemptFault::CountedReel(1), false),
];

/// The causes for which a look failed, and whether a dump tries again.
static LOOKS: [(TapeCause, bool); 7] = [
    (TapeCause::Refused(2), false),
    (TapeCause::Refused(6), true),
    (TapeCause::Refused(16), true),
    (TapeCause::Refused(22), false),
    (TapeCause::NoReply(CallFault::ConnectionEnded), true),
    (TapeCause::NoReply(CallFault::Botched), false),
    (TapeCause::NoReply(CallFault::OutOfMemory), true),
];

/// A look whose open failed for this reason.
fn look(cause: TapeCause) -> Setback {
    Setback::Look(TapeFault {
        request: TapeRequest::Open,
        cause,
    })
}

#[test]
fn setbacks(rt: HostRuntime) {
    for (at, (fault, waits)) in ATTEMPTS.iter().enumerate() {
        let again = Retries::new(1).take(Setback::Attempt(*fault));
        check_row(&rt, at, again == *waits);
    }
    for (at, (cause, waits)) in LOOKS.iter().enumerate() {
        check_row(&rt, at, Retries::new(1).take(look(*cause)) == *waits);
    }
    assert!(rt; !Retries::new(1).take(Setback::Protected));
}

#[test]
fn tries_that_are_left(rt: HostRuntime) {
    let empty = look(TapeCause::Refused(6));
    let mut retries = Retries::new(2);
    assert!(rt; retries.take(empty) && retries.take(empty) && !retries.take(empty));
    retries.counted();
    assert!(rt; retries.take(empty) && !retries.take(Setback::Protected));
    assert!(rt; retries.take(empty) && !retries.take(empty));
    assert!(rt; !Retries::new(0).take(empty));
}
