//! Tests of the printed names of faults, and calls of the laws of the grammar.

use rmt_wire::{
    OutputFault, StreamFault, WireFault, dropped_writes, long_texts, one_reading, one_reply,
    one_reply_reading, short_replies,
};
use std::alloc::{AllocError, Global};
use std::fmt::Display;
use std::test::Fail;

/// Whether the fault is printed as this name.
fn prints<F: Display>(alloc: Global, fault: &F, name: &str) -> Result<bool, AllocError> {
    Ok(fault.to_string(alloc)?.as_str() == name)
}

static NAMES: [(WireFault, &str); 5] = [
    (WireFault::UnknownCommand, "UnknownCommand"),
    (WireFault::BadNumber, "BadNumber"),
    (WireFault::LineTooLong, "LineTooLong"),
    (WireFault::NotAReply, "NotAReply"),
    (WireFault::TooMuchData, "TooMuchData"),
];

/// A fault of a stream for each kind, and its name.
static STREAM_NAMES: [(StreamFault, &str); 3] = [
    (
        StreamFault::Broken(WireFault::BadNumber),
        "Broken: BadNumber",
    ),
    (StreamFault::Truncated, "Truncated"),
    (StreamFault::Input, "Input"),
];

#[test]
fn faults_print_their_names(rt: HostRuntime) -> Result<(), Fail> {
    for (fault, name) in &NAMES {
        assert!(rt; prints(rt.alloc(), fault, name)?);
    }
    Ok(())
}

#[test]
fn faults_of_streams_print_their_names(rt: HostRuntime) -> Result<(), Fail> {
    for (fault, name) in &STREAM_NAMES {
        assert!(rt; prints(rt.alloc(), fault, name)?);
    }
    assert!(rt; prints(rt.alloc(), &OutputFault, "Output")?);
    Ok(())
}

#[test]
fn laws_are_called() {
    one_reading();
    dropped_writes();
    one_reply();
    one_reply_reading();
    short_replies();
    long_texts();
}
