//! Tests of each crate against values worked out by hand.

mod of_catalog;
mod of_dump_client;
mod of_dump_run;
mod of_dumpdates;
mod of_examples;
mod of_reel_check;
