//! The examples, against bytes that were written by hand.

mod client;
mod server;
