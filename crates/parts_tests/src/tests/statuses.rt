//! The numbers of the exit statuses, as dump(8) has them.

use console::ExitStatus;

/// Each exit status, and its number (dump(8), "Diagnostics").
static STATUSES: [(ExitStatus, u8); 3] = [
    (ExitStatus::Success, 0),
    (ExitStatus::StartupError, 1),
    (ExitStatus::Abnormal, 3),
];

#[test]
fn each_status_has_its_number(rt: HostRuntime) {
    for (at, (status, number)) in STATUSES.iter().enumerate() {
        super::check_row(&rt, at, status.code() == *number);
    }
}
