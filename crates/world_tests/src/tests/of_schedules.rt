//! What schedules print, and their exit statuses.

mod bad_lines;
mod faults;
mod fixture;
mod memory;
mod program;
mod runs;
