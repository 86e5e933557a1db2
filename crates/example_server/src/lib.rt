//! An example to copy: a tape server that stores nothing. `answer` is its reply to a request, and
//! `serve` is the loop around it. They need only `rmt_wire`.
#![tactic(auto)]

mod reply;
mod stream;

pub use reply::answer;
pub use stream::{Stop, serve};
