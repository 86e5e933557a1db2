//! Refuses a run whose limits the arguments violate.
ghost use Rattle.std.specs.Prelude.{◌≡◌};
ghost use Rattle.console.specs.declared.status.ExitStatus.TheVariants.{StartupError};

use console::ExitStatus;
use dump_client::RunFault;
use rdump_args::{DumpLine, dump_error};
use rdump_system::{ClientSystem, report_no_memory};
use std::alloc::{AllocError, Global};

pub(crate) fn refuse_run<R: ClientSystem>(
    rt: &R,
    line: &DumpLine<'_>,
    fault: RunFault,
) -> ExitStatus
    ensures { result ≡ StartupError }
{
    let Ok(error) = error_of(rt.alloc(), line, fault) else {
        return report_no_memory(rt);
    };
    let _ = error.print(rt);
    ExitStatus::StartupError
}

/// Returns the message, with the usage of the command.
fn error_of(
    alloc: Global,
    line: &DumpLine<'_>,
    fault: RunFault,
) -> Result<clap::Error, AllocError> {
    let limit = limit_of(alloc, line, fault)?;
    let text = format!(in alloc; "{fault}: {limit}")?;
    dump_error(alloc, text.as_str())
}

/// Returns the argument that violates a limit, and the limit.
fn limit_of(alloc: Global, line: &DumpLine<'_>, fault: RunFault) -> Result<String, AllocError> {
    let (level, date, block) = (line.level, line.date.unwrap_or(0), line.block);
    match fault {
        RunFault::BadDevice => {
            String::from_str(
                alloc,
                "--device <DEVICE>: a device is 1 to 255 bytes of one line",
            )
        }
        RunFault::BadName => String::from_str(
            alloc,
            "--fs <NAME>: a name is 1 to 255 bytes of printable ASCII without a space",
        ),
        RunFault::BadLevel => format!(in alloc; "--level {level}: a level is 0 to 9"),
        RunFault::BadDate => format!(in alloc; "--date {date}: a date is 0 to 253402300799"),
        RunFault::BadBlockSize => format!(in alloc;
            "--block {block}: a block is 1 to 262144 bytes"
        ),
        RunFault::TooManyBlocks => {
            format!(in alloc; "--block {block}: a dump has at most 2147483647 blocks")
        }
    }
}
