//! Stacks in memory.

ghost use Rattle.std.specs.Prelude.{◌≡◌, ◌≢◌, ℕ, ◌<◌, List, IfErr, IfOk, IfSome, IsTrue, None, MatchBool, MatchResult, map, length};
ghost use Rattle.std.specs.Option.{option_copied, option_map};
ghost use Rattle.drives.specs.declared.fault.DriveFault.TheVariants.{Device};
ghost use Rattle.drives.specs.ListLibrary.{IsLibrary, StacksCanFail, empty_library, library_of, at_rest, rest_slot, after_failure, IsDriveAdded, IsReelAdded, IsReelLatched, IsReelLaidBack, IsReelMoved, IsListStacksCall};
ghost use Rattle.drives.specs.TapeLibrary.{TapeLibrary, IsDriveNamed, drive_at, slots_in, times, names_of, names_in, EachReelOnce};
ghost use Rattle.drives.specs.Arranging.{slot_named, reel_named, arranged, may_arrange, IsArranged};
ghost use Rattle.drives.specs.Calls.{moved_result};
ghost use Rattle.drives.specs.Stacking.{HasLatched};

use crate::list_drive::{ListDrive, any_stacked, find_stacked};
use crate::pick::{all_differ, all_there, any_named, find_named, pick};
use crate::{DriveFault, ListedReel, Stacks};
use std::alloc::Global;
use std::marker::Model;
use tape::{Reel, TroubledReel};

/// Drives with stacks of named reels and a bin, all in memory.
///
/// The bin always has room for every reel that was added, so a move allocates nothing. A reel that
/// is latched, laid back or moved keeps its own trouble and its count of failures. Each `drive`
/// that is passed must be a number that `add_drive` returned.
#[derive(Drop)]
pub struct ListStacks {
    alloc: Global,
    drives: Vec<ListDrive>,
    bin: Vec<ListedReel>,
    reels: usize,
    trouble: bool,
    failures: u64,
}

impl Model for ListStacks {
    ghost use Rattle.std.specs.Prelude.{vec_capacity};
    ghost use Rattle.drives.specs.TapeLibrary.{library};
    ghost use Rattle.drives.specs.ListLibrary.{ListLibrary, IsStocked};

    ghost Value = { ListLibrary };

    ghost view = { λ s. record { library = library s.drives.items s.bin.items; trouble = s.trouble; failures = s.failures } };

    ghost invariant = { λ s. IsStocked (library s.drives.items s.bin.items) s.reels (vec_capacity s.bin) };
}

impl ListStacks {
    /// Returns stacks with no drive, an empty bin and no trouble. It allocates nothing.
    pub fn new(alloc: Global) -> ListStacks
        ensures empty { result ≡ empty_library }
        ensures told { IsLibrary result (library_of result) }
        ensures quiet { StacksCanFail result → ⊥ }
    {
        ListStacks {
            alloc,
            drives: Vec::new(alloc),
            bin: Vec::new(alloc),
            reels: 0,
            trouble: false,
            failures: 0,
        }
    }

    /// Adds a drive with the given name and an empty stack, and returns its number, counted from 0.
    ///
    /// Fails with `NameTaken` if a drive has that name, and with `OutOfMemory`. Nothing is changed
    /// then.
    pub fn add_drive(&mut self, name: &[u8]) -> Result<usize, DriveFault>
        ensures added { IsDriveAdded self.old name.now result self.new }
        ensures told { IsLibrary self.new (library_of self.new) }
        ensures quiet { StacksCanFail self.new → StacksCanFail self.old }
    {
        if self.number_of(name).is_some() {
            return Err(DriveFault::NameTaken);
        }
        self.put_drive(name)
    }

    /// Adds an empty reel at the end of a drive's stack, and reserves room for it in the bin.
    /// `capacity` is in bytes.
    ///
    /// Fails with `NameTaken` if a reel on a stack, in a drive or in the bin has that name, and
    /// with `OutOfMemory`. Nothing is changed then.
    pub fn add_reel(&mut self, drive: usize, name: &[u8], capacity: u64) -> Result<(), DriveFault>
        requires { drive < length self.old.library.drives }
        ensures added { IsReelAdded self.old drive name.now capacity result self.new }
        ensures told { IsLibrary self.new (library_of self.new) }
        ensures quiet { StacksCanFail self.new → StacksCanFail self.old }
    {
        if self.has_reel(name) {
            return Err(DriveFault::NameTaken);
        }
        self.put_reel(drive, name, capacity)
    }

    /// Returns the reels of the drive's stack, in order. The first may be latched.
    pub fn stack(&self, drive: usize) -> &[ListedReel]
        requires { drive < length self.now.library.drives }
        ensures lying { result.now ≡ (drive_at self.now.library drive).stack }
        ensures told { map rest_slot result.now ≡ (drive_at (library_of self.now) drive).stack }
    {
        let chosen = &self.drives[drive];
        chosen.stack()
    }

    /// Returns the reels in the bin, in the order in which they were moved there.
    pub fn bin(&self) -> &[ListedReel]
        ensures lying { result.now ≡ self.now.library.bin }
        ensures told { map rest_slot result.now ≡ (library_of self.now).bin }
    {
        &self.bin
    }

    /// Returns the reel with the given name, on a stack or in the bin, unless it is latched.
    pub fn reel(&self, name: &[u8]) -> Option<&TroubledReel>
        ensures found { option_copied result ≡ reel_named name.now (slots_in self.now.library) }
        ensures told { option_map at_rest (option_copied result) ≡ reel_named name.now (slots_in (library_of self.now)) }
    {
        match self.listed(name) {
            Some(listed) => listed.reel(),
            None => None,
        }
    }

    /// Returns whether `arrange` can be called. No reel of the drive may be latched. The names must
    /// be distinct names of reels on the drive's stack or in the bin.
    pub fn can_arrange(&self, drive: usize, names: &[&[u8]]) -> bool
        requires { drive < length self.now.library.drives }
        ensures may { result ≡ may_arrange self.now.library drive (map (λ n. n.now) names.now) }
        ensures told { result ≡ may_arrange (library_of self.now) drive (map (λ n. n.now) names.now) }
    {
        self.can_put_stack(drive, names)
    }

    /// Rearranges the drive's stack, as an operator does: the stack then has the reels with these
    /// names, in that order. The stack's other reels go to the end of the bin, in their order. Call
    /// it only if `can_arrange` returns true.
    ///
    /// Fails with `OutOfMemory`. Nothing is changed then.
    pub fn arrange(&mut self, drive: usize, names: &[&[u8]]) -> Result<(), DriveFault>
        requires drive { drive < length self.old.library.drives }
        requires may { IsTrue (may_arrange self.old.library drive (map (λ n. n.now) names.now)) }
        ensures arranged { IsArranged self.old drive (map (λ n. n.now) names.now) result self.new }
        ensures told_order { MatchResult result
            (λ _. library_of self.new ≡ arranged (library_of self.old) drive (map (λ n. n.now) names.now))
            (λ _. library_of self.new ≡ library_of self.old) }
        ensures order { IfOk result (λ _. names_of (drive_at self.new.library drive).stack ≡ map (λ n. n.now) names.now) }
        ensures told { IsLibrary self.new (library_of self.new) }
        ensures names { (name : List ℕ) → times name (names_in self.new.library) ≡ times name (names_in self.old.library) }
        ensures elsewhere { (d : ℕ) → d ≢ drive → HasLatched IsLibrary self.old d → HasLatched IsLibrary self.new d }
        ensures quiet { StacksCanFail self.new → StacksCanFail self.old }
        ensures same_trouble { self.new.trouble ≡ self.old.trouble }
        ensures same_failures { self.new.failures ≡ self.old.failures }
        ensures same_drives { length self.new.library.drives ≡ length self.old.library.drives }
    {
        self.put_stack(drive, names)
    }

    /// Sets whether the next latch or move to the bin fails with `Device`. A latch that finds no
    /// reel, and an `unlatch`, do not call the device and leave the setting.
    pub fn trouble(&mut self, on: bool)
        ensures { self.new ≡ record self.old { trouble = on } }
    {
        self.trouble = on;
    }

    fn number_of(&self, name: &[u8]) -> Option<usize>
        ensures found { IsDriveNamed name.now self.now.library result }
        ensures once { EachReelOnce self.now.library }
    {
        self.drives.iter().position(|chosen| chosen.is_named(name))
    }

    fn has_reel(&self, name: &[u8]) -> bool
        ensures found { MatchBool result (0 < times name.now (names_in self.now.library)) (times name.now (names_in self.now.library) ≡ 0) }
        ensures once { EachReelOnce self.now.library }
    {
        any_stacked(&self.drives, name) || any_named(&self.bin, name)
    }

    fn put_drive(&mut self, name: &[u8]) -> Result<usize, DriveFault>
        requires { IsDriveNamed name.now self.old.library None }
        ensures { IsDriveAdded self.old name.now result self.new }
    {
        let number = self.drives.len();
        let chosen = ListDrive::new(self.alloc, name)?;
        if self.drives.push(chosen).is_err() {
            return Err(DriveFault::OutOfMemory);
        }
        Ok(number)
    }

    fn put_reel(&mut self, drive: usize, name: &[u8], capacity: u64) -> Result<(), DriveFault>
        requires drive { drive < length self.old.library.drives }
        requires free { times name.now (names_in self.old.library) ≡ 0 }
        ensures { IsReelAdded self.old drive name.now capacity result self.new }
    {
        let reel = ListedReel::new(self.alloc, name, capacity)?;
        self.bin.reserve(self.reels - self.bin.len() + 1)?;
        let chosen = &mut self.drives[drive];
        chosen.push(reel)?;
        self.reels += 1;
        Ok(())
    }

    fn listed(&self, name: &[u8]) -> Option<&ListedReel>
        ensures { option_copied result ≡ slot_named name.now (slots_in self.now.library) }
    {
        if let Some(listed) = find_stacked(&self.drives, name) {
            return Some(listed);
        }
        find_named(&self.bin, name)
    }

    fn can_put_stack(&self, drive: usize, names: &[&[u8]]) -> bool
        requires { drive < length self.now.library.drives }
        ensures { result ≡ may_arrange self.now.library drive (map (λ n. n.now) names.now) }
    {
        let chosen = &self.drives[drive];
        if chosen.is_latched() {
            return false;
        }
        all_differ(names) && all_there(names, &self.bin, chosen.stack())
    }

    fn put_stack(&mut self, drive: usize, names: &[&[u8]]) -> Result<(), DriveFault>
        requires { drive < length self.old.library.drives }
        ensures arranged { IsArranged self.old drive (map (λ n. n.now) names.now) result self.new }
        ensures once { EachReelOnce self.old.library }
    {
        let mut stack = Vec::with_capacity(self.alloc, names.len())?;
        let chosen = &mut self.drives[drive];
        chosen.lay_off(&mut self.bin)?;
        pick(&mut self.bin, names, &mut stack);
        chosen.lay_on(stack);
        Ok(())
    }

    fn take_first(&mut self, drive: usize) -> Result<TroubledReel, DriveFault>
        requires { drive < length self.old.library.drives }
        ensures latched { IsReelLatched self.old drive result self.new }
        ensures once { EachReelOnce self.old.library }
    {
        if self.trouble {
            let chosen = &self.drives[drive];
            if chosen.is_ready() {
                return Err(self.fail());
            }
        }
        let chosen = &mut self.drives[drive];
        let Some(mut reel) = chosen.latch() else {
            return Err(DriveFault::NoReel);
        };
        reel.rewind();
        Ok(reel)
    }

    fn lay_first(&mut self, drive: usize, reel: TroubledReel)
        requires drive { drive < length self.old.library.drives }
        requires latched { HasLatched IsLibrary self.old drive }
        ensures once { EachReelOnce self.old.library }
        ensures laid { IsReelLaidBack self.old drive reel self.new }
    {
        let chosen = &mut self.drives[drive];
        chosen.unlatch(reel);
    }

    fn move_first(
        &mut self,
        drive: usize,
        reel: TroubledReel,
    ) -> Result<(), (TroubledReel, DriveFault)>
        requires drive { drive < length self.old.library.drives }
        requires latched { HasLatched IsLibrary self.old drive }
        ensures once { EachReelOnce self.old.library }
        ensures moved { IsReelMoved self.old drive reel (moved_result result) self.new }
        ensures back { IfErr result (λ refused. refused.0 ≡ reel) }
    {
        if self.trouble {
            return Err((reel, self.fail()));
        }
        let chosen = &mut self.drives[drive];
        let mut listed = chosen.remove_first();
        listed.put(reel);
        self.bin.push_reserved(listed);
        Ok(())
    }

    fn fail(&mut self) -> DriveFault
        ensures fault { result ≡ Device }
        ensures counted { self.new ≡ after_failure self.old }
    {
        self.trouble = false;
        self.failures = self.failures.saturating_add(1);
        DriveFault::Device
    }
}

impl Stacks for ListStacks {
    ghost use Rattle.std.proofs.Common.{ap, sym, ◌∙◌};
    ghost use Rattle.std.proofs.lemmas.List.{length-map};
    ghost use Rattle.drives.specs.ListLibrary.{rest_drive};

    type Reel = TroubledReel;

    ghost holds = { IsLibrary };

    ghost drives = { λ s. length s.library.drives };

    ghost failures = { λ s. s.failures };

    ghost can_fail = { StacksCanFail };

    ghost makes = { IsListStacksCall };

    fn drive(&self, name: &[u8]) -> Option<usize>
        ensures below { IfSome result (λ d. d < length self.now.library.drives) }
        ensures named { (s : TapeLibrary) → IsLibrary self.now s → IsDriveNamed name.now s result }
        ensures found { IsDriveNamed name.now self.now.library result }
    {
        self.number_of(name)
    }

    /// Fails only with `NoReel`, or with `Device` if a reel is there and the trouble is set. It
    /// allocates nothing.
    fn latch(&mut self, drive: usize) -> Result<TroubledReel, DriveFault> {
        self.take_first(drive)
    }

    fn unlatch(&mut self, drive: usize, reel: TroubledReel) {
        self.lay_first(drive, reel);
    }

    /// Fails only with `Device`, if the trouble is set.
    fn offline(
        &mut self,
        drive: usize,
        reel: TroubledReel,
    ) -> Result<(), (TroubledReel, DriveFault)> {
        self.move_first(drive, reel)
    }

    fn failures(&self) -> u64 {
        self.failures
    }

    ghost single = { λ stacks s t h k. h.0 ∙ sym k.0 };

    ghost once = { λ stacks s h. h.1 };

    ghost sized = { λ stacks s h. ap (λ (x : TapeLibrary). length x.drives) h.0 ∙ length-map stacks.library.drives rest_drive };
}
