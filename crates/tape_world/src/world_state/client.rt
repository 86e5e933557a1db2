//! Events at the client's side.
ghost use Rattle.std.specs.Prelude.{◌≡◌, ◌*◌, ◌↔◌, ◌++◌, ◌∷◌, true, false, IfOk, OnOk, OnErr, [], length, map};
ghost use Rattle.dump_run.specs.Blocks.{cut_blocks, listed};
ghost use Rattle.dump_run.specs.Run.{IsRun};
ghost use Rattle.dump_client.specs.Client.{IsPayload};
ghost use Rattle.dump_client.specs.Standing.{standing, state_of};
ghost use Rattle.dump_client.specs.declared.stage.Stage.TheVariants.{Ready};
ghost use Rattle.world_model.specs.Events.PlainEvent.{StartRun, Connect, Respond, EndAtClient};
ghost use Rattle.world_model.specs.Rows.{NoRun, StandsIn};
ghost use Rattle.world_model.specs.Kept.{IsWorldKept};
ghost use Rattle.tape_world.specs.Holding.{IsEvent};
ghost use Rattle.tape_world.specs.Calling.{ClientAnswers, ClientSeesEnd, IsBegunWith, IsReady, Starts};
ghost use Rattle.tape_world.specs.declared.caller.Begun.{Begun as RealBegun};

use super::WorldState;
use super::saving::{change_kept, drop_kept};
use crate::caller::{Begun, WorldClient};
use crate::stop::EventStop;
use dump_client::{Answer, AttemptFault, Client, ListBlocks, Progress, Run, State};
use std::alloc::{AllocError, Global};
use world_host::{AttemptState, Connection};

/// Copies the payload, as blocks of the run.
fn blocks_of(alloc: Global, run: &Run, payload: &[u8]) -> Result<ListBlocks, AllocError>
    requires { length payload.now ≡ run.now.blocks * run.now.block_bytes }
    ensures listed { IfOk result (λ b. b ≡ listed (cut_blocks run.now.blocks run.now.block_bytes payload.now) false 0) }
    ensures shaped { IfOk result (λ b. IsPayload run.now b.blocks) }
{
    let copy = Vec::from_slice(alloc, payload)?;
    Ok(ListBlocks::new(copy, run.block_bytes(), run.blocks()))
}

fn begun_of(alloc: Global, run: &Run, payload: &[u8]) -> Result<Begun, AllocError>
    requires { length payload.now ≡ run.now.blocks * run.now.block_bytes }
    ensures { IfOk result (λ b. IsBegunWith run.now payload.now b) }
{
    Ok(Begun {
        run: run.clone()?,
        payload: blocks_of(alloc, run, payload)?,
    })
}

fn add_begun(
    alloc: Global,
    begun: &mut Vec<Begun>,
    run: &Run,
    payload: &[u8],
) -> Result<(), AllocError>
    requires { length payload.now ≡ run.now.blocks * run.now.block_bytes }
    ensures added { OnOk result ((b : RealBegun) × (begun.new.items ≡ begun.old.items ++ b ∷ []) × IsBegunWith run.now payload.now b) }
    ensures refused { OnErr result (begun.new.items ≡ begun.old.items) }
{
    begun.reserve(1)?;
    begun.push_reserved(begun_of(alloc, run, payload)?);
    Ok(())
}

fn client_of(alloc: Global, run: &Run, payload: &[u8]) -> Result<Client<ListBlocks>, AllocError>
    requires { length payload.now ≡ run.now.blocks * run.now.block_bytes }
    ensures made { IfOk result (λ c. c.at ≡ standing run.now [] Ready) }
    ensures given { IfOk result (λ c. c.source ≡ listed (cut_blocks run.now.blocks run.now.block_bytes payload.now) false 0) }
    ensures run { IfOk result (λ _. IsRun run.now) }
{
    let source = blocks_of(alloc, run, payload)?;
    let client = Client::new(alloc, run.clone()?, source)?;
    let state = client.state();
    prove!(matches!(state, State::Ready));
    Ok(client)
}

/// Begins a run of this payload: adds it at the end of `begun`, and returns its client.
fn begin(
    alloc: Global,
    begun: &mut Vec<Begun>,
    run: &Run,
    payload: &[u8],
) -> Result<Client<ListBlocks>, AllocError>
    requires { length payload.now ≡ run.now.blocks * run.now.block_bytes }
    ensures made { IfOk result (λ c. c.at ≡ standing run.now [] Ready) }
    ensures given { IfOk result (λ c. c.source ≡ listed (cut_blocks run.now.blocks run.now.block_bytes payload.now) false 0) }
    ensures run { IfOk result (λ _. IsRun run.now) }
    ensures added { OnOk result ((b : RealBegun) × (begun.new.items ≡ begun.old.items ++ b ∷ []) × IsBegunWith run.now payload.now b) }
    ensures refused { OnErr result (begun.new.items ≡ begun.old.items) }
{
    let client = client_of(alloc, run, payload)?;
    add_begun(alloc, begun, run, payload)?;
    Ok(client)
}

pub(super) fn change_caller(caller: &mut Option<WorldClient>, new: Option<WorldClient>)
    ensures { caller.new ≡ new }
{
    *caller = new;
}

/// Starts an attempt of the client, which must be ready, and returns the attempt.
#[tactic(auto, using(crate::proofs::Starting::starts))]
fn start_attempt(caller: &mut Option<WorldClient>) -> Result<AttemptState, EventStop>
    requires { IsReady caller.old }
    ensures { Starts caller.old result caller.new }
{
    let Some(caller) = caller else {
        return Err(EventStop::NotPossible);
    };
    let (volume, first) = caller.client.checkpoint();
    if caller.client.start().is_err() {
        return Err(EventStop::OutOfMemory);
    }
    Ok(AttemptState::new(caller.number, volume, first))
}

fn give_answer(caller: &mut Option<WorldClient>, answer: Answer)
    ensures { ClientAnswers caller.old answer caller.new }
{
    if let Some(caller) = caller {
        let _ = caller.client.answer(answer);
    }
}

/// Reports the end of its connection to the client, if there is one. Returns the volume and the
/// cause if that makes the attempt fail.
fn end_attempt(caller: &mut Option<WorldClient>) -> Option<(u32, AttemptFault)>
    ensures { ClientSeesEnd caller.old result caller.new }
{
    let Some(caller) = caller else {
        return None;
    };
    match caller.client.ended() {
        Progress::Failed(fault) => Some((caller.client.checkpoint().0, fault)),
        _ => None,
    }
}

impl WorldState {
    /// Whether there is a client, and it is in this state.
    pub(super) fn is_client_in(&self, state: State) -> bool
        ensures { (result ≡ true) ↔ StandsIn self.now (λ stage. state_of stage ≡ state) }
    {
        match &self.caller {
            Some(caller) => caller.client.state() == state,
            None => false,
        }
    }

    /// Whether there is no client, or its run is finished or abandoned.
    fn has_no_run(&self) -> bool
        ensures { (result ≡ true) ↔ NoRun self.now }
    {
        match &self.caller {
            Some(caller) => matches!(caller.client.state(), State::Finished | State::Abandoned),
            None => true,
        }
    }

    /// Begins a run, and makes a client for it. A saved run is dropped.
    pub(crate) fn start_run(&mut self, run: &Run, payload: &[u8]) -> Result<(), EventStop>
        ensures { IsEvent self.old (StartRun run.now payload.now) result self.new }
    {
        let bytes = run.blocks() as usize * run.block_bytes();
        if !self.has_no_run() || payload.len() != bytes {
            return Err(EventStop::NotPossible);
        }
        let client = begin(self.alloc, &mut self.begun, run, payload)?;
        let caller = WorldClient {
            number: self.begun.len(),
            client,
        };
        change_caller(&mut self.caller, Some(caller));
        change_kept(&mut self.kept, None);
        self.failure = None;
        Ok(())
    }

    /// Starts an attempt of the client, on a new connection.
    #[tactic(auto, using(crate::proofs::Starting::unstarted_sourced, crate::proofs::Starting::started, crate::proofs::Clients::sourced_same))]
    pub(crate) fn connect(&mut self) -> Result<(), EventStop>
        ensures { IsEvent self.old Connect result self.new }
    {
        if !self.is_client_in(State::Ready) {
            return Err(EventStop::NotPossible);
        }
        self.connections.reserve()?;
        self.host.prepare()?;
        let dumping = start_attempt(&mut self.caller)?;
        self.host.admit();
        self.connections
            .add(Connection::new(self.alloc, Some(dumping)));
        self.own = Some(self.connections.len());
        self.failure = None;
        Ok(())
    }

    /// Gives the client the operator's answer. If this abandons the run, the saved run is dropped.
    pub(crate) fn respond(&mut self, answer: Answer) -> Result<(), EventStop>
        ensures { IsEvent self.old (Respond answer) result self.new }
    {
        if !self.is_client_in(State::Asking) {
            return Err(EventStop::NotPossible);
        }
        give_answer(&mut self.caller, answer);
        drop_kept(&mut self.kept, answer);
        self.failure = None;
        Ok(())
    }

    /// Lets the peer notice that the connection has ended, and leave it. If the peer is the client,
    /// this ends its attempt.
    pub(crate) fn end_at_client(&mut self, connection: usize) -> Result<(), EventStop>
        requires { IsWorldKept self.old }
        ensures { IsEvent self.old (EndAtClient connection) result self.new }
    {
        let Some(conn) = self.connections.find(connection) else {
            return Err(EventStop::NotPossible);
        };
        if !conn.other || !conn.cut {
            return Err(EventStop::NotPossible);
        }
        let is_strangers = conn.dump.is_none();
        self.connections.end_there(connection);
        if is_strangers {
            self.failure = None;
            return Ok(());
        }
        self.own = None;
        self.failure = end_attempt(&mut self.caller);
        Ok(())
    }
}
