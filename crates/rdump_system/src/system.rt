//! `ClientSystem`.
use std::fs::File;
use std::io::Input;
use std::net::Net;
use std::rt::{Clock, Env, Files};

/// The part of the runtime that the commands use.
pub trait ClientSystem: AllocGlobal
    + Clock
    + Env
    + Eprint
    + Files<File = File>
    + Input
    + Net
    + Print {}

impl<R: AllocGlobal + Clock + Env + Eprint + Files<File = File> + Input + Net + Print> ClientSystem
    for R {}
