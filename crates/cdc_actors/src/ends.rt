//! An actor of a run, whatever it works with.

ghost use Rattle.std.specs.Prelude.{◌≡◌, ◌≤◌, ◌+◌, Err, IfErr, IfOk, IfSome, None, Some, is_some, true};
ghost use Rattle.cdc_actors.specs.Ends.{HasTurned, has_finished, new_end};
ghost use Rattle.cdc_actor_work.specs.declared.faults.RunFault.{RunFault};

use crate::met::Met;
use crate::stops::Stop;
use crate::turns::Turn;
use cdc_actor_work::{Noted, Numbered, Place, RunFault, Turns, Work};
use std::alloc::Global;
use std::marker::Model;
use std::sync::Wait;

/// An actor of a run. A contract sees the number of its system, what it works with, and its first fault, if any.
pub struct End<W: Work> {
    pub(crate) system: u64,
    pub(crate) work: W,
    pub(crate) fault: Option<RunFault>,
}

// Written by hand, so that dropping one calls this function and doesn't take it apart again.
impl<W: Work + Drop> Drop for End<W> {
    fn drop(self) {
        let Self {
            system: _,
            work: _,
            fault: _,
        } = self;
    }
}

impl<W: Work> Model for End<W> {
    ghost use Rattle.std.specs.Prelude.{◌≡◌, IfSome, None};
    ghost use Rattle.cdc_actors.specs.Ends.{ActorState};

    ghost Value = { ActorState W };

    ghost view = { λ end. record { system = end.system; work = end.work; fault = end.fault } };

    ghost invariant = { λ end.
        (end.fault ≡ None → W.keeps end.work) × IfSome end.fault (W.fails_as end.work) };
}

/// Completes a step of an actor's work and returns its outcome. If that is a fault, the fault is kept and the actor's
/// outgoing links are aborted.
pub(crate) fn come_to<T: Drop, W: Work, R: Wait>(
    work: &mut W,
    fault: &mut Option<RunFault>,
    rt: &R,
    outcome: Result<T, RunFault>,
) -> Result<T, RunFault>
    ensures same { result ≡ outcome }
    ensures work { work.new ≡ work.old }
    ensures met { IfErr outcome (λ met. fault.new ≡ Some met) }
    ensures well { IfOk outcome (λ _. fault.new ≡ fault.old) }
{
    if let Err(met) = &outcome {
        *fault = Some(*met);
        work.abort(rt);
    }
    outcome
}

impl<W: Work> End<W> {
    /// An actor of a system that is to do this work, and has done nothing yet.
    pub(crate) fn of(system: u64, work: W) -> End<W>
        requires { W.keeps work }
        ensures { result ≡ new_end system work }
    {
        End {
            system,
            work,
            fault: None,
        }
    }

    /// The number of the system that the actor belongs to.
    pub fn system(&self) -> u64
        ensures { result ≡ self.now.system }
    {
        self.system
    }

    /// The actor's place in a run.
    pub fn place(&self) -> Place
        ensures { result ≡ W.place self.now.work }
    {
        self.work.place()
    }

    /// Whether the actor has finished and has met no fault.
    pub fn has_finished(&self) -> bool
        ensures { result ≡ has_finished W.is_over self.now }
    {
        self.fault.is_none() && self.work.is_over()
    }
}

impl<W: Numbered> End<W> {
    /// The actor's number among those of its kind, from 1.
    pub fn number(&self) -> u64
        ensures { result ≡ W.number self.now.work }
    {
        self.work.number()
    }
}

impl<W: Noted> End<W> {
    /// Takes what the actor has noted so far for the trace of a run. The actor goes on with no notes.
    pub fn take_notes(&mut self, alloc: Global) -> W::Notes
        ensures { self.new ≡ self.old }
    {
        self.work.take_notes(alloc)
    }
}

impl<W: Work + Drop> End<W> {
    /// Drops the actor before it has worked, and aborts its outgoing links.
    pub fn abort<R: Wait>(self, rt: &R) -> Stop
        ensures { result ≡ record {
          system = self.system;
          place = W.place self.work;
          met = Met.Unstarted;
        } }
    {
        let Self {
            system,
            mut work,
            fault: _,
        } = self;
        work.abort(rt);
        Stop::of(system, work.place(), Met::Unstarted)
    }

    /// Drops the actor, which has met a fault.
    pub fn stop(self) -> Stop
        requires { is_some self.fault ≡ true }
        ensures { IfSome self.fault (λ fault. result ≡ record {
          system = self.system;
          place = W.place self.work;
          met = Met.Fault fault;
        }) }
    {
        let Self {
            system,
            work,
            fault,
        } = self;
        Stop::of(system, work.place(), Met::Fault(fault.unwrap()))
    }

    /// What the actor leaves behind. None if it hasn't finished or has met a fault.
    pub fn into_parts(self) -> Option<W::Parts>
        ensures some { is_some result ≡ has_finished W.is_over self }
        ensures parts { IfSome result (W.leaves self.work) }
        ensures kept { IfSome result (λ _. W.keeps self.work) }
    {
        let Self {
            system: _,
            work,
            fault,
        } = self;
        if fault.is_none() && work.is_over() {
            Some(work.into_parts())
        } else {
            None
        }
    }
}

impl<W: Turns> End<W> {
    /// Takes one turn of the actor's work: receives one message, and sends what follows from it. Only the connector's
    /// first turn receives none. Once the work is over, a turn changes nothing. The first fault stays: every later call
    /// returns it.
    pub fn turn<R: Wait>(&mut self, rt: &R, alloc: Global) -> Result<Turn, RunFault>
        ensures turned { IfOk result (λ turn. HasTurned W.is_over W.turns self.old turn self.new) }
        ensures one { IfOk result (λ _. W.received self.new.work ≤ W.received self.old.work + 1) }
        ensures kept { IfOk result (λ _. W.keeps self.new.work) }
        ensures system { self.new.system ≡ self.old.system }
        ensures seat { W.seat self.new.work ≡ W.seat self.old.work }
        ensures failed { self.old.fault ≡ None → IfErr result (λ fault.
            W.fails self.old.work fault self.new.work × W.keeps self.old.work) }
        ensures fault { IfErr result (λ fault. self.new.fault ≡ Some fault) }
        ensures kind { IfErr result (W.fails_as self.new.work) }
        ensures again { (fault : RunFault) → self.old.fault ≡ Some fault
            → (result ≡ Err fault) × (self.new ≡ self.old) }
    {
        self.turn_with(rt, alloc, 0)
    }

    /// Takes one turn, in which the broker and the connector may receive up to `more` further messages if they are
    /// ready. Otherwise it is like `turn`.
    pub fn turn_with<R: Wait>(
        &mut self,
        rt: &R,
        alloc: Global,
        more: usize,
    ) -> Result<Turn, RunFault>
        ensures turned { IfOk result (λ turn. HasTurned W.is_over W.turns self.old turn self.new) }
        ensures few { IfOk result (λ _.
            W.received self.new.work ≤ W.received self.old.work + 1 + more) }
        ensures kept { IfOk result (λ _. W.keeps self.new.work) }
        ensures system { self.new.system ≡ self.old.system }
        ensures seat { W.seat self.new.work ≡ W.seat self.old.work }
        ensures failed { self.old.fault ≡ None → IfErr result (λ fault.
            W.fails self.old.work fault self.new.work × W.keeps self.old.work) }
        ensures fault { IfErr result (λ fault. self.new.fault ≡ Some fault) }
        ensures kind { IfErr result (W.fails_as self.new.work) }
        ensures again { (fault : RunFault) → self.old.fault ≡ Some fault
            → (result ≡ Err fault) × (self.new ≡ self.old) }
    {
        if let Some(fault) = self.fault {
            return Err(fault);
        }
        if self.work.is_over() {
            return Ok(Turn::Finished);
        }
        let outcome = self.work.take_turn(rt, alloc, more);
        come_to(&mut self.work, &mut self.fault, rt, outcome)?;
        Ok(Turn::after(self.work.is_over()))
    }
}
