//! The server `rmtd`: reads its arguments, and serves streams with one drive in memory or with
//! drives in folders. It serves one stream after the other, or up to 32 in parallel, each in its
//! own thread.
//!
//! # Contracts
//!
//! A *serve step* is one request, with a reply and an effect that the protocol allows. A *table*
//! has 32 *seats*, and records which seat holds which drive. Each session has a seat. The *stacks*
//! are the server's drives with their reels, and the bin. A *worker* is a seat that holds no drive,
//! with stacks, for one thread.
//!
//! `rmt_tools` exports most names of this crate too.
#![tactic(auto)]

mod at;
mod closing;
mod connections;
mod ended;
mod error_log;
mod file_limit;
mod folders;
mod idle_watch;
mod idle_workers;
mod incoming;
mod line_start;
mod listener_setup;
mod listening;
mod logged_stacks;
mod many;
mod memory_server;
mod names_table;
mod ready;
mod session_fault;
mod startup;
mod status;
mod stdio;
mod tape_server;
mod unused_seats;
mod warnings;
mod worker;

pub use at::serve_at;
pub use closing::close_table;
pub use connections::Connections;
pub use error_log::ErrorLog;
pub use folders::{folder_stacks, seat_stacks};
pub use incoming::{DropReason, Incoming};
pub use line_start::LineStart;
pub use listener_setup::ListenerSetup;
pub use listening::serve_connections;
pub use many::serve_many;
pub use memory_server::MemoryServer;
pub use session_fault::SessionFault;
pub use startup::{Begun, ServerSystem, begin, start};
pub use status::ExitStatus;
pub use stdio::run_stdio;
pub use tape_server::TapeServer;
