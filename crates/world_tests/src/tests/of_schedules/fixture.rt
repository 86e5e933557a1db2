//! A schedule, and what it must print.

use rmt_wire::Counted;
use rsim_schedule::schedule;
use std::alloc::Global;
use std::test::Fail;

/// A schedule, what it prints, and its exit status.
pub(crate) struct Case {
    pub(crate) text: &'static [u8],
    pub(crate) printed: &'static [u8],
    pub(crate) status: u8,
}

/// Runs the schedule. Fails if it prints something else, or has another status.
pub(crate) fn check(alloc: Global, text: &[u8], wanted: &[u8], status: u8) -> Result<(), Fail> {
    let mut printed = Vec::new(alloc);
    let mut out = Counted::new(&mut printed);
    let told = schedule(alloc, text, &mut out).code();
    if told == status && printed.as_slice() == wanted {
        return Ok(());
    }
    let text = str::from_utf8(text).unwrap_or("");
    let printed = str::from_utf8(printed.as_slice()).unwrap_or("");
    Err(Fail::new(format_args!("{told}: {printed} of {text}")))
}

/// Runs each of these schedules.
pub(crate) fn check_cases(alloc: Global, cases: &[Case]) -> Result<(), Fail> {
    for case in cases {
        check(alloc, case.text, case.printed, case.status)?;
    }
    Ok(())
}
