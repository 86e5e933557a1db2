//! The program `rsim` with its arguments.

use rmt_wire::Counted;
use rsim_schedule::rsim;
use std::test::Fail;
use std::{fs, process};

/// A drive with a reel, and a line that is not possible.
const TEXT: &str = "drive /dev/st0 3100 r1\nretry\n";

const PRINTED: &[u8] = b"line 2: not possible\n";

/// Returns the path of a file that no other test uses.
fn new_path(rt: &HostRuntime) -> Result<String, Fail> {
    let id = process::id(rt.process());
    Ok(format!(in rt.alloc(); "schedule_{id}")?)
}

/// Returns what `rsim` prints for this file, and its exit status.
fn ended_on(rt: &HostRuntime, path: &str) -> Result<(Vec<u8>, u8), Fail> {
    let mut arguments = Vec::new(rt.alloc());
    arguments.push(String::from_str(rt.alloc(), "rsim")?)?;
    arguments.push(String::from_str(rt.alloc(), path)?)?;
    let mut printed = Vec::new(rt.alloc());
    let mut out = Counted::new(&mut printed);
    let status = rsim(rt, &arguments, &mut out)?.code();
    Ok((printed, status))
}

#[test]
fn runs_the_schedule_of_a_file(rt: HostRuntime) -> Result<(), Fail> {
    let path = new_path(&rt)?;
    fs::write(&rt, path.as_str(), TEXT)?;
    let (printed, status) = ended_on(&rt, path.as_str())?;
    assert!(&rt; status == 1 && printed.as_slice() == PRINTED);
    fs::remove_file(&rt, path.as_str())?;
    Ok(())
}

#[test]
fn runs_no_schedule_of_a_missing_file(rt: HostRuntime) -> Result<(), Fail> {
    let path = new_path(&rt)?;
    let (printed, status) = ended_on(&rt, path.as_str())?;
    assert!(rt; status == 1 && printed.is_empty());
    Ok(())
}
