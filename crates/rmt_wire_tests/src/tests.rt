//! Tests of streams of requests and of replies that come in two pieces, against values written by
//! hand. Tests of writers, and of counted streams that take or give a few bytes a call and fail.

mod calls;
mod counted;
mod fake;
mod fed;
mod filled;
mod helpers;
mod listener;
mod pushed;
mod received;
mod replies;
mod reply_faults;
mod streams;
mod words;
mod written;
