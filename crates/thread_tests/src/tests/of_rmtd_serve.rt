//! Sessions in threads, over streams that wait for one another.

mod accepts;
mod at;
mod at_once;
mod crowd;
mod streams;
mod table;
