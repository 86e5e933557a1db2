//! One server.
ghost use Rattle.std.specs.Prelude.{◌≡◌, ◌+◌, ◌<◌, ◌≤◌, false, true, [], None, IfOk, IfErr, IfSome, IsTrue, MatchResult, length, map, replicate, vec_len, vec_capacity};
ghost use Rattle.std.specs.Option.{option_copied, option_map};
ghost use Rattle.drives.specs.declared.fault.DriveFault.TheVariants.{OutOfMemory};
ghost use Rattle.drives.specs.TapeLibrary.{IsDriveNamed, drive_at, latched_at, slots_in};
ghost use Rattle.drives.specs.ListLibrary.{IsLibrary, library_of, at_rest, rest_slot, StacksCanFail};
ghost use Rattle.drives.specs.declared.holds.TheConstants.{DRIVE_LIMIT};
ghost use Rattle.drives.specs.Arranging.{reel_named, may_arrange};
ghost use Rattle.rmt_server.specs.Memory.{session_seen};
ghost use Rattle.rmt_server.specs.ServerState.{server};
ghost use Rattle.world_host.specs.Servers.{hosted, side_at, joined, ended, all_ended, restacked, HasRoom, IsPiecePushed, IsHolder, IsHeldOnce};
ghost use Rattle.world_host.specs.Lying.{AreAllInSlots};
ghost use Rattle.world_host.specs.Turns.{TurnsAt, ServesAt, with_back};

use crate::serving::take_turn;
use crate::side::{Next, ServerConnection, find_side, put_side, take_side};
use crate::turn::Turn;
use drives::{
    DriveFault, DriveTable, ListStacks, ListedReel, LocalHolds, Stacks, arranged_at_rest,
};
use rmt_server::{
    Session, more_seats, one_holder, one_session_view, open_is_held, still_at, untroubled_end,
};
use rmt_wire::READER_LIMIT;
use std::alloc::{AllocError, Global};
use std::marker::Model;
use std::mem;
use tape::{Trouble, TroubledReel};

/// One server: its drives, whose reels are in memory, and its side of each connection. Drives are
/// numbered from 0.
#[derive(Drop)]
pub struct Host {
    alloc: Global,
    drives: DriveTable<LocalHolds, ListStacks>,
    sides: Vec<Option<ServerConnection>>,
    next: Next,
}

impl Model for Host {
    ghost use Rattle.std.specs.Prelude.{◌<◌, true, ◌≡◌, vec_len, vec_capacity};
    ghost use Rattle.world_host.specs.Servers.{Hosted, hosted};
    ghost use Rattle.world_host.specs.Hosting.{server_of, is_whole_side, IsHosting};

    ghost Value = { Hosted };

    ghost view = { λ h. hosted (server_of h.drives h.sides.items) (is_whole_side h.next) };

    ghost invariant = { λ h. IsHosting h.drives h.sides.items h.next × (is_whole_side h.next ≡ true → vec_len h.sides < vec_capacity h.sides) };
}

impl Host {
    /// Makes a server with the drives of `stacks`, and no connection. `drives` is their number,
    /// from 1 to `drives::DRIVE_LIMIT`. No trouble may be set in `stacks`, and no reel may be
    /// latched.
    ///
    /// Fails only if an allocation fails.
    pub fn new(alloc: Global, drives: usize, stacks: ListStacks) -> Result<Host, AllocError>
        requires some { 1 ≤ drives }
        requires few { drives ≤ DRIVE_LIMIT }
        requires all { length stacks.library.drives ≡ drives }
        requires told { IsLibrary stacks (library_of stacks) }
        requires quiet { StacksCanFail stacks → ⊥ }
        requires rested { AreAllInSlots (library_of stacks) }
        ensures server { IfOk result (λ h. h ≡ hosted (server (library_of stacks) (replicate drives 0) []) false) }
    {
        let holds = LocalHolds::new(alloc, drives)?;
        let drives = DriveTable { holds, stacks };
        Ok(Host {
            alloc,
            drives,
            sides: Vec::new(alloc),
            next: Next::Nothing,
        })
    }

    /// Makes the server's side of the next connection, for `admit`, unless it exists already.
    ///
    /// Fails if an allocation fails, or if no number is left for its seat. Nothing that contracts
    /// see has changed then.
    pub fn prepare(&mut self) -> Result<(), AllocError>
        ensures { MatchResult result (λ _. self.new ≡ hosted self.old.server true) (λ _. self.new ≡ self.old) }
    {
        self.reserve_seat();
        self.build_connection()
    }

    /// Reserves a seat for the next connection, unless it has one or no number is left.
    fn reserve_seat(&mut self)
        ensures { self.new ≡ self.old }
    {
        if self.next.is_nothing() {
            if let Some(seat) = self.drives.holds.seat() {
                more_seats::<ListStacks>();
                self.next = Next::Seat(seat);
            }
        }
    }

    fn build_connection(&mut self) -> Result<(), AllocError>
        ensures { MatchResult result (λ _. self.new ≡ hosted self.old.server true) (λ _. self.new ≡ self.old) }
    {
        self.sides.reserve(1)?;
        let (next, result) = mem::replace(&mut self.next, Next::Nothing).made(self.alloc);
        self.next = next;
        result
    }

    /// Admits the next connection, for which `prepare` made the server's side.
    pub fn admit(&mut self)
        requires { self.old.ready ≡ true }
        ensures { self.new ≡ hosted (joined self.old.server) false }
    {
        if let Next::Whole(side) = mem::replace(&mut self.next, Next::Nothing) {
            self.sides.push_reserved(Some(side));
        }
    }

    /// Returns the connection that has the given drive open, even if the reel is in the bin, or 0
    /// if none has.
    pub fn holder(&self, drive: usize) -> u64
        requires { drive < length self.now.server.holders }
        ensures holder { IsHolder self.now.server drive result }
        ensures once { IsHeldOnce self.now.server }
    {
        self.drives.holds.number_at(drive)
    }

    /// Returns how many bytes `push` can take now, or `None` if the server's side is not live.
    pub fn room(&self, connection: usize) -> Option<usize>
        ensures { HasRoom (side_at self.now.server.sides connection) result }
    {
        let side = find_side(&self.sides, connection)?;
        Some(side.reader.room())
    }

    /// Takes as many of the bytes as the connection's reader has room for, and returns how many.
    /// Takes none if the server's side is not live.
    pub fn push(&mut self, connection: usize, bytes: &[u8]) -> usize
        ensures { IsPiecePushed self.old connection bytes.now (side_at self.old.server.sides connection) result self.new }
    {
        let Some(mut side) = take_side(&mut self.sides, connection) else {
            return 0;
        };
        let count = side.reader.push(bytes);
        put_side(&mut self.sides, connection, side);
        count
    }

    /// Carries out the next request of a connection, if the pushed bytes contain a whole one.
    /// Appends the reply to `back`, unless `lost` is true. `back` must have room for `READER_LIMIT`
    /// (262,156) more bytes.
    ///
    /// Only the device call of this request meets the trouble. The law `troubled_serve` of
    /// `rmt_server` states the reply and what changes. If the bytes are no request, the server's
    /// side ends, as with `end`. Does nothing if that side is not live, or if the bytes are only
    /// the beginning of a request.
    pub fn serve(
        &mut self,
        connection: usize,
        trouble: Trouble,
        back: &mut Vec<u8>,
        lost: bool,
    ) -> Turn
        requires room { vec_len back.old + READER_LIMIT ≤ vec_capacity back.old }
        ensures { ServesAt trouble lost self.old connection back.old.items result self.new back.new.items }
    {
        let turn = self.turn(connection, trouble, back, lost);
        if let Turn::Broken(_) = turn {
            self.end(connection);
        }
        turn
    }

    /// Like `serve`, but leaves the server's side live if the bytes are no request.
    fn turn(&mut self, connection: usize, trouble: Trouble, back: &mut Vec<u8>, lost: bool) -> Turn
        requires room { vec_len back.old + READER_LIMIT ≤ vec_capacity back.old }
        ensures { TurnsAt self.old trouble lost (with_back self.old back.old.items) connection
            (side_at self.old.server.sides connection) result (with_back self.new back.new.items) }
    {
        one_holder::<ListStacks>();
        let Some(mut side) = take_side(&mut self.sides, connection) else {
            return Turn::Nothing;
        };
        let turn = take_turn(
            &mut side.reader,
            &mut side.session,
            &mut self.drives,
            trouble,
            back,
            lost,
        );
        put_side(&mut self.sides, connection, side);
        turn
    }

    /// Ends the server's side of a connection: closes what its session has open, so that its drive
    /// has no holder. Does nothing if the side is not live.
    pub fn end(&mut self, connection: usize)
        ensures { self.new ≡ hosted (ended self.old.server connection) self.old.ready }
    {
        one_holder::<ListStacks>();
        one_session_view();
        untroubled_end();
        if let Some(mut side) = take_side(&mut self.sides, connection) {
            side.session.end(&mut self.drives);
        }
    }

    /// Ends the server's side of every connection.
    pub fn restart(&mut self)
        ensures { self.new ≡ hosted (all_ended self.old.server (length self.old.server.sides)) self.old.ready }
    {
        for place in 0..self.sides.len() {
            self.end(place + 1);
        }
    }

    /// Returns the number of the first drive with the given name, if there is one.
    pub fn drive(&self, name: &[u8]) -> Option<usize>
        ensures { IsDriveNamed name.now self.now.server.library result }
    {
        self.drives.stacks.drive(name)
    }

    /// Returns the session of a connection, if the server's side is live.
    pub fn session(&self, connection: usize) -> Option<&Session<LocalHolds, ListStacks>>
        ensures seen { option_map (λ s. session_seen s.opened) (option_copied result)
            ≡ option_map (λ s. s.session) (side_at self.now.server.sides connection) }
        ensures number { IfSome (option_copied result) (λ s. s.seat.number ≡ connection) }
    {
        let live = find_side(&self.sides, connection)?;
        Some(&live.session)
    }

    /// Returns the reels of a drive's stack in order. The first is latched, or is the next to be.
    pub fn stack(&self, drive: usize) -> &[ListedReel]
        requires { drive < length self.now.server.library.drives }
        ensures { map rest_slot result.now ≡ (drive_at self.now.server.library drive).stack }
    {
        self.drives.stacks.stack(drive)
    }

    /// Returns the reels of the bin, in the order in which they were moved there.
    pub fn bin(&self) -> &[ListedReel]
        ensures { map rest_slot result.now ≡ self.now.server.library.bin }
    {
        self.drives.stacks.bin()
    }

    /// Returns the reel with the given name, if it is on a stack or in the bin, and not latched.
    pub fn reel(&self, name: &[u8]) -> Option<&TroubledReel>
        ensures { option_map at_rest (option_copied result) ≡ reel_named name.now (slots_in self.now.server.library) }
    {
        self.drives.stacks.reel(name)
    }

    /// Returns whether `arrange` can be called with the given names: no reel of the drive is
    /// latched, each name is that of a reel of its stack or of the bin, and none occurs twice.
    pub fn can_arrange(&self, drive: usize, names: &[&[u8]]) -> bool
        requires { drive < length self.now.server.library.drives }
        ensures may { result ≡ may_arrange self.now.server.library drive (map (λ n. n.now) names.now) }
        ensures free { IsHolder self.now.server drive 0 → latched_at self.now.server.library drive ≡ None }
    {
        self.drives.stacks.can_arrange(drive, names)
    }

    /// Makes the reels of these names, in that order, the stack of a drive that has no holder. The
    /// other reels of the stack move to the end of the bin, in their order. `can_arrange` must be
    /// true of the names.
    ///
    /// Fails only with `OutOfMemory`, if an allocation fails. Nothing has changed then.
    pub fn arrange(&mut self, drive: usize, names: &[&[u8]]) -> Result<(), DriveFault>
        requires free { IsHolder self.old.server drive 0 }
        requires drive { drive < length self.old.server.library.drives }
        requires may { IsTrue (may_arrange self.old.server.library drive (map (λ n. n.now) names.now)) }
        ensures arranged { MatchResult result
            (λ _. self.new ≡ hosted (restacked self.old.server drive (map (λ n. n.now) names.now)) self.old.ready)
            (λ _. self.new ≡ self.old) }
        ensures fault { IfErr result (λ fault. fault ≡ OutOfMemory) }
    {
        arranged_at_rest();
        open_is_held::<ListStacks>();
        still_at::<LocalHolds, ListStacks>();
        self.drives.stacks.arrange(drive, names)
    }
}
