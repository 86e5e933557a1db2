//! A client's attempts, against requests and replies written by hand.

mod checkpoint;
mod client;
mod client_cut;
mod client_ends;
mod client_faults;
mod client_source;
mod faults;
mod laws;
mod play;
mod script;
