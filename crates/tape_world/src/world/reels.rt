//! The entries on the reels of a world.
ghost use Rattle.std.specs.Prelude.{◌≡◌, length, map};
ghost use Rattle.std.specs.Option.{option_copied, option_map};
ghost use Rattle.std.specs.Str.{bytes_eq};
ghost use Rattle.tape.specs.List.{entry_length, entry_bytes, with_front};
ghost use Rattle.drives.specs.ListLibrary.{rest_slot};
ghost use Rattle.world_host.specs.Servers.{side_at};
ghost use Rattle.world_model.specs.Changes.{first_name};
ghost use Rattle.tape_world.specs.Entries.{AreOpenThere, entry_on, tape_online, first_tape_online};

use super::World;
use drives::ListedReel;
use tape::TroubledReel;
use world_host::Host;
use world_model::kept;

/// Whether the first reel of a stack has that name. An empty stack has the empty name.
fn is_first(stack: &[ListedReel], name: &[u8]) -> bool
    ensures { result ≡ bytes_eq name.now (first_name (map rest_slot stack.now)) }
{
    match stack.first() {
        Some(reel) => name == reel.name(),
        None => name.is_empty(),
    }
}

/// Returns the reel that a connection has online, if it has that name.
fn find_online_at<'a>(host: &'a Host, connection: usize, name: &[u8]) -> Option<&'a TroubledReel>
    requires { AreOpenThere host.now.server }
    ensures { option_map (λ r. r.tape) (option_copied result)
        ≡ tape_online name.now host.now.server.library (side_at host.now.server.sides connection) }
{
    let session = host.session(connection)?;
    let (drive, reel) = session.reel()?;
    if is_first(host.stack(drive), name) {
        return Some(reel);
    }
    None
}

/// Returns the first reel of that name that one of `count` connections has online.
fn find_online<'a>(host: &'a Host, count: usize, name: &[u8]) -> Option<&'a TroubledReel>
    requires there { AreOpenThere host.now.server }
    requires all { length host.now.server.sides ≡ count }
    ensures { option_map (λ r. r.tape) (option_copied result)
        ≡ first_tape_online name.now host.now.server.library host.now.server.sides }
{
    for place in 0..count {
        if let Some(reel) = find_online_at(host, place + 1, name) {
            return Some(reel);
        }
    }
    None
}

impl World {
    /// Returns the length of entry `i`, from 0, of the reel with the given name. The reel can be on
    /// a stack, in the bin, or in a drive. The length of a record is its number of bytes, at least
    /// 1, and the length of a mark is 0. Returns `None` past the last entry, and if there is no
    /// such reel.
    ///
    /// Copies the first bytes of the record, as many as fit, to the front of `into`, and changes no
    /// more of it.
    #[tactic(auto, using(crate::proofs::Online::held_there))]
    pub fn entry(&self, reel: &[u8], i: usize, into: &mut [u8]) -> Option<usize>
        ensures told { result ≡ entry_length (entry_on self.now reel.now i) }
        ensures copied { into.new ≡ with_front (entry_bytes (entry_on self.now reel.now i)) into.old }
    {
        kept();
        if let Some(lying) = self.world_state.host.reel(reel) {
            return lying.entry(i, into);
        }
        let online = find_online(
            &self.world_state.host,
            self.world_state.connections.len(),
            reel,
        )?;
        online.entry(i, into)
    }
}
