//! Re-exports most public items of the crates that make up `rmtd`, `rdump` and `rsim`. This crate's
//! `dump`, `read_volume`, `mt`, `dates` and `schedule` return the number of their exit status. It
//! adds a peer in memory, which tests use in place of a connection.
//!
//! # Contracts
//!
//! A *peer* is the far end of a connection, and the peer's *log* lists what passed over the peer's
//! connections, as in `rdump_net`. `MemoryPeer` is a peer that has a server and drives in memory.
//! For each connection the peer has a *session*, which can have one drive open.
#![tactic(auto)]

mod exit_codes;
mod memory_peer;

pub use dump_files::Clearing;
pub use dump_files::KeepFault;
pub use dump_files::PayloadFile;
pub use dump_files::ProgressLine;
pub use dump_files::ResumedDumpFault;
pub use dump_files::UpdateFault;
pub use dump_files::date_text;
pub use dump_files::dumper_of;
pub use dump_files::keep_checkpoint;
pub use dump_files::resume_dump;
pub use dump_files::run_of;
pub use dump_files::seconds_now;
pub use dump_files::update;
pub use exit_codes::dates;
pub use exit_codes::dump;
pub use exit_codes::mt;
pub use exit_codes::read_volume;
pub use exit_codes::schedule;
pub use hold_table::HoldSeat;
pub use hold_table::HoldTable;
pub use hold_table::TableHand;
pub use memory_peer::MemoryPeer;
pub use rdump_args::DumpLine;
pub use rdump_args::ListLine;
pub use rdump_args::ListedReels;
pub use rdump_args::MtLine;
pub use rdump_args::RdumpLine;
pub use rdump_args::ReadLine;
pub use rdump_args::rdump_args;
pub use rdump_commands::rdump;
pub use rdump_commands::run_arguments;
pub use rdump_commands::run_dates;
pub use rdump_commands::run_dump;
pub use rdump_commands::run_mt;
pub use rdump_commands::run_read;
pub use rdump_list::ListSystem;
pub use rdump_list::is_whole;
pub use rdump_list::push_verdict;
pub use rdump_list::run_ls;
pub use rdump_net::AfterVolume;
pub use rdump_net::Answers;
pub use rdump_net::Conclusion;
pub use rdump_net::DumpEnd;
pub use rdump_net::DumpObserver;
pub use rdump_net::ReadFault;
pub use rdump_net::Reply;
pub use rdump_net::Retries;
pub use rdump_net::Setback;
pub use rdump_net::SinkStopped;
pub use rdump_net::SocketPeer;
pub use rdump_net::Verdict;
pub use rdump_net::VolumeSink;
pub use rdump_net::copy_volume;
pub use rdump_net::dump_to_end;
pub use rdump_net::failure_line;
pub use reel_files::FileMedium;
pub use reel_files::FolderDrive;
pub use reel_files::FolderFault;
pub use reel_files::FolderStacks;
pub use remote_tape::CallFault;
pub use remote_tape::MarkSearch;
pub use remote_tape::Passed;
pub use remote_tape::Peer;
pub use remote_tape::RemoteTape;
pub use remote_tape::TapeCause;
pub use remote_tape::TapeReply;
pub use remote_tape::TapeRequest;
pub use remote_tape::find_mark;
pub use rmtd_args::DriveArgument;
pub use rmtd_args::LineFault;
pub use rmtd_args::ServerLine;
pub use rmtd_args::server_line;
pub use rmtd_args::server_words;
pub use rmtd_serve::Begun;
pub use rmtd_serve::Connections;
pub use rmtd_serve::DropReason;
pub use rmtd_serve::ExitStatus;
pub use rmtd_serve::Incoming;
pub use rmtd_serve::ListenerSetup;
pub use rmtd_serve::MemoryServer;
pub use rmtd_serve::TapeServer;
pub use rmtd_serve::begin;
pub use rmtd_serve::folder_stacks;
pub use rmtd_serve::run_stdio;
pub use rmtd_serve::seat_stacks;
pub use rmtd_serve::serve_at;
pub use rmtd_serve::serve_connections;
pub use rmtd_serve::serve_many;
pub use rmtd_serve::start;
pub use rsim_schedule::rsim;
pub use volume_check::Holding;
pub use volume_check::ReelContents;
pub use volume_check::ReelTally;
pub use volume_check::Volume;
pub use volume_check::VolumeEnd;
pub use volume_check::check_reel;
pub use volume_check::dumped_volume;
pub use volume_check::one_holding;
pub use volume_check::one_volume;
pub use whole_files::FileFailed;
pub use whole_files::ReplacedFile;
pub use whole_files::WholeFile;
pub use whole_files::named_file;
pub use whole_files::read_or_empty;
pub use whole_files::read_steady;
