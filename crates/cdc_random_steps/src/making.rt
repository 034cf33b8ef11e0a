//! Generates random steps: each drawn step is tried in a world, and kept if the world takes it.

ghost use Rattle.std.specs.Prelude.{◌<◌};
ghost use Rattle.cdc_types.specs.Windows.{IsWindow};

use cdc_diagnostics::{Sentence, step_text};
use cdc_match::Binding;
use cdc_plans::Chances;
use cdc_progress::MemoryStore;
use cdc_script::{Act, ClientBatch, Script, ScriptError, StepFile, parse_script};
use cdc_types::{EventTimestamp, Limits, Step};
use cdc_world::{StepError, World};
use rand::RngExt;
use rand_core::SeedableRng;
use rand_xoshiro::Xoshiro256PlusPlus;
use std::alloc::{AllocError, Global};
use std::fmt::Write;
use std::vec::IntoIter;

mod finishing;

/// How often in a row the world may refuse a drawn step before no more steps are generated.
const TRIES: u64 = 256;

/// Random steps, and the text of the step file that has them.
#[derive(Drop)]
pub struct RandomSteps {
    /// The text: one line for each step, and one comment for each skipped packet or confirm.
    pub text: String,
    /// What the text is parsed as: the steps, and the line of each, from 1.
    pub steps: StepFile,
}

/// A draw: what is tried next.
#[derive(Drop)]
enum Draw {
    /// The script's next batch.
    Batch,
    /// This step.
    Step(Step),
    /// The next packet to arrive is skipped; only an injected fault may bring it later.
    LosePacket,
    /// The next confirm to come is skipped; only an injected fault may bring it later.
    LoseConfirm,
}

/// The steps so far, and the state that the next draws depend on.
#[derive(Drop)]
struct Maker {
    /// The generator of random numbers.
    rng: Xoshiro256PlusPlus,
    /// The script's batches that are not submitted yet.
    batches: IntoIter<ClientBatch>,
    /// Whether no further batch is submitted.
    batches_done: bool,
    /// The greatest number of a packet that has come to the broker or was skipped.
    arrived: u64,
    /// The greatest number of a confirm that has come to a session or was skipped.
    answered: u64,
    /// For each subscriber, the greatest number of an acknowledgement that has come to the broker.
    acked: [u64; Limits::SUBSCRIBERS],
    /// Whether the session waits for something that was lost or skipped.
    is_waiting: bool,
    /// Whether a session runs.
    runs: bool,
    /// Whether a confirm came since the last save.
    has_news: bool,
    /// How many lines the text has.
    lines: u32,
    /// Whether every subscriber is to receive all events and the end-of-stream marker: no subscriber is closed, and the
    /// first session starts before all events.
    to_end: bool,
    /// What is made so far.
    made: RandomSteps,
}

/// Generates steps for a script: its world takes them, one after another. Most of them make progress; faults are
/// injected among them. With `chances.to_end`, further steps follow without faults, until every subscriber has received
/// the end-of-stream marker. `window` is how many events of a session may wait for their confirms at a time. A bad
/// script gives no steps.
pub fn random_steps(
    alloc: Global,
    script: &[u8],
    window: usize,
    chances: Chances,
) -> Result<RandomSteps, AllocError>
    requires { IsWindow window }
{
    let none = RandomSteps {
        text: String::new(alloc),
        steps: StepFile {
            acts: Vec::new(alloc),
            lines: Vec::new(alloc),
        },
    };
    let Script {
        bindings,
        batches,
        lines: _,
    } = match parse_script(alloc, script) {
        Ok(script) => script,
        Err(ScriptError::Fault(_)) => return Ok(none),
        Err(ScriptError::OutOfMemory) => return Err(AllocError),
    };
    let mut maker = Maker {
        rng: Xoshiro256PlusPlus::seed_from_u64(chances.seed),
        batches: batches.into_vec().into_iter(),
        batches_done: false,
        arrived: 0,
        answered: 0,
        acked: [0; Limits::SUBSCRIBERS],
        is_waiting: false,
        runs: false,
        has_news: false,
        lines: 0,
        to_end: chances.to_end,
        made: none,
    };
    make_in_world(alloc, bindings.into_vec(), window, chances, &mut maker)?;
    let Maker { made, .. } = maker;
    Ok(made)
}

/// Generates steps in a new world with these bindings. The world is owned only here, and lent to all other functions,
/// since it owns much.
fn make_in_world(
    alloc: Global,
    bindings: Vec<Binding>,
    window: usize,
    chances: Chances,
    maker: &mut Maker,
) -> Result<(), AllocError>
    requires { IsWindow window }
{
    let mut world = World::new(alloc, bindings, window, MemoryStore::new())?;
    maker.make(alloc, &mut world, chances)?;
    if chances.to_end {
        maker.finish(alloc, &mut world)?;
    }
    Ok(())
}

impl Maker {
    /// Generates steps until there are enough, or until the world takes neither a step that makes progress nor a
    /// fault. If all is done, a fault makes more to do.
    fn make(
        &mut self,
        alloc: Global,
        world: &mut World<MemoryStore>,
        chances: Chances,
    ) -> Result<(), AllocError> {
        let mut faults = chances.faults;
        for done in 0..chances.steps {
            let is_fault = faults != 0 && self.below(chances.steps - done) < faults;
            if is_fault {
                faults -= 1;
                if self.make_one(alloc, world, true)? {
                    continue;
                }
            }
            if !self.make_one(alloc, world, false)? {
                if faults == 0 || !self.make_one(alloc, world, true)? {
                    break;
                }
                faults -= 1;
            }
        }
        Ok(())
    }

    /// Generates one step, a fault or one that makes progress. Returns whether the world took any.
    fn make_one(
        &mut self,
        alloc: Global,
        world: &mut World<MemoryStore>,
        is_fault: bool,
    ) -> Result<bool, AllocError> {
        for _ in 0..TRIES {
            let draw = if is_fault {
                self.draw_fault(world)
            } else {
                self.draw_step(world)
            };
            if self.try_draw(alloc, world, draw)? {
                return Ok(true);
            }
        }
        Ok(false)
    }

    /// A random number below this one.
    fn below(&mut self, count: u64) -> u64
        requires { 0 < count }
        ensures { result < count }
    {
        self.rng.random_range(0..count)
    }

    /// The number, from 1, of a random subscriber, or 0 if there is none.
    fn subscriber(&mut self, world: &World<MemoryStore>) -> usize {
        match world.subscriber_count() {
            0 => 0,
            count => self.below(count as u64) as usize + 1,
        }
    }

    /// Draws a step that makes progress.
    fn draw_step(&mut self, world: &World<MemoryStore>) -> Draw {
        let i = self.subscriber(world);
        let number = i as u64;
        match self.below(13) {
            0 => Draw::Batch,
            1 => Draw::Step(self.start(world)),
            2 => self.draw_save(),
            3 => Draw::Step(Step::Poll),
            4 => Draw::Step(Step::Publish),
            5 | 6 => Draw::Step(Step::Arrive(self.arrived.saturating_add(1))),
            7 => Draw::Step(Step::Answer(self.answered.saturating_add(1))),
            8 | 9 => Draw::Step(Step::Send(number)),
            10 => Draw::Step(Step::Take(number)),
            11 => self.draw_ack(number, acks_of(world, i)),
            _ => self.draw_ending(),
        }
    }

    /// A session's start, or a crash if it waits for what was lost. The first session may be given a timestamp to
    /// start after, unless every subscriber is to receive all events.
    fn start(&mut self, world: &World<MemoryStore>) -> Step {
        if self.runs && self.is_waiting {
            return Step::Crash;
        }
        if !self.to_end && world.packets() == 0 && self.below(4) == 0 {
            let last = world.ledger().last();
            if let Some(time) = EventTimestamp::new(self.below(last.saturating_add(1))) {
                return Step::StartAt(time);
            }
        }
        Step::Start
    }

    /// A save if a confirm came since the last one, or otherwise the next packet.
    fn draw_save(&self) -> Draw {
        if self.has_news {
            Draw::Step(Step::Save)
        } else {
            Draw::Step(Step::Publish)
        }
    }

    /// The last of `count` acknowledgements of a subscriber, if neither it nor a later one has come; otherwise its
    /// next delivery, since a duplicate of an acknowledgement changes nothing.
    fn draw_ack(&self, number: u64, count: u64) -> Draw {
        match self.acked.get(number.wrapping_sub(1) as usize) {
            Some(acked) if *acked < count => Draw::Step(Step::Ack(number, count)),
            _ => Draw::Step(Step::Take(number)),
        }
    }

    /// The ledger's close, once no batch is left to submit.
    fn draw_ending(&mut self) -> Draw {
        if self.batches_done {
            Draw::Step(Step::CloseLedger)
        } else {
            Draw::Batch
        }
    }

    /// Draws a fault.
    fn draw_fault(&mut self, world: &World<MemoryStore>) -> Draw {
        let i = self.subscriber(world);
        let number = i as u64;
        match self.below(9) {
            0 => Draw::Step(Step::Crash),
            1 => Draw::LosePacket,
            2 => Draw::LoseConfirm,
            3 => Draw::Step(Step::Arrive(self.one_of(world.packets()))),
            4 => Draw::Step(Step::Answer(self.one_of(world.confirms()))),
            5 => Draw::Step(Step::Rewind(number)),
            6 => Draw::Step(Step::Break(number)),
            7 => Draw::Step(Step::Ack(number, self.one_of(acks_of(world, i) as usize))),
            _ => self.draw_close(number),
        }
    }

    /// A random number from 1 to this one, or 0 if this is 0.
    fn one_of(&mut self, count: usize) -> u64 {
        match count as u64 {
            0 => 0,
            count => self.below(count) + 1,
        }
    }

    /// A subscriber's close, or a rewind instead, so that closes are rarer than other faults: a closed subscriber
    /// shows little. Always a rewind if every subscriber is to receive all events.
    fn draw_close(&mut self, number: u64) -> Draw {
        if !self.to_end && self.below(4) == 0 {
            Draw::Step(Step::Close(number))
        } else {
            Draw::Step(Step::Rewind(number))
        }
    }

    /// Tries what was drawn, and writes it down if the world takes it. Returns whether it did.
    fn try_draw(
        &mut self,
        alloc: Global,
        world: &mut World<MemoryStore>,
        draw: Draw,
    ) -> Result<bool, AllocError> {
        match draw {
            Draw::Step(step) => self.try_step(alloc, world, step),
            Draw::Batch => self.try_batch(alloc, world),
            Draw::LosePacket => self.lose_packet(world.packets() as u64),
            Draw::LoseConfirm => self.lose_confirm(world.confirms() as u64),
        }
    }

    /// Submits the next batch, if one is left. After a batch that the ledger refuses no other is submitted, since the
    /// play would stop there.
    fn try_batch(
        &mut self,
        alloc: Global,
        world: &mut World<MemoryStore>,
    ) -> Result<bool, AllocError> {
        if self.batches_done {
            return Ok(false);
        }
        let Some(item) = self.batches.next() else {
            self.batches_done = true;
            return Ok(false);
        };
        let is_done = self.try_step(alloc, world, Step::Submit(item.batch))?;
        self.batches_done = !is_done;
        Ok(is_done)
    }

    /// Tries a step, and writes it down if the world takes it. Returns whether it did.
    fn try_step(
        &mut self,
        alloc: Global,
        world: &mut World<MemoryStore>,
        step: Step,
    ) -> Result<bool, AllocError> {
        if matches!(&step, Step::CloseLedger) && world.ledger().closed() {
            return Ok(false);
        }
        match world.step(alloc, &step) {
            Ok(_) => {}
            Err(StepError::OutOfMemory) => return Err(AllocError),
            Err(_) => return Ok(false),
        }
        self.follow(&step);
        self.write_step(step)?;
        Ok(true)
    }

    /// Writes down a step that was done.
    fn write_step(&mut self, step: Step) -> Result<(), AllocError> {
        self.write_line(step_text(&step))?;
        let act = match step {
            Step::Submit(_) => Act::Batch,
            step => Act::Step(step),
        };
        self.made.steps.acts.push(act)?;
        self.made.steps.lines.push(self.lines)?;
        Ok(())
    }

    /// Writes a line of the text.
    fn write_line(&mut self, line: Sentence) -> Result<(), AllocError> {
        self.lines = self.lines.saturating_add(1);
        match writeln!(self.made.text, "{line}") {
            Ok(()) => Ok(()),
            Err(_) => Err(AllocError),
        }
    }

    /// Updates what the next draws depend on after a step that was done.
    fn follow(&mut self, step: &Step) {
        match step {
            Step::Start | Step::StartAt(_) => {
                self.runs = true;
                self.is_waiting = false;
            }
            Step::Crash => self.runs = false,
            Step::Arrive(k) => {
                self.is_waiting = self.is_waiting || *k > self.arrived.saturating_add(1);
                self.arrived = self.arrived.max(*k);
            }
            Step::Answer(k) => {
                self.is_waiting = self.is_waiting || *k > self.answered.saturating_add(1);
                self.answered = self.answered.max(*k);
                self.has_news = true;
            }
            Step::Save => self.has_news = false,
            Step::Ack(number, k) => {
                if let Some(acked) = self.acked.get_mut(number.wrapping_sub(1) as usize) {
                    *acked = (*acked).max(*k);
                }
            }
            _ => {}
        }
    }

    /// Skips the next of `count` packets. Returns false if none is left.
    fn lose_packet(&mut self, count: u64) -> Result<bool, AllocError> {
        if self.arrived >= count {
            return Ok(false);
        }
        self.arrived += 1;
        self.is_waiting = true;
        self.write_line(Sentence::One("# packet ", self.arrived.into(), " is left out"))?;
        Ok(true)
    }

    /// Skips the next of `count` confirms. Returns false if none is left.
    fn lose_confirm(&mut self, count: u64) -> Result<bool, AllocError> {
        if self.answered >= count {
            return Ok(false);
        }
        self.answered += 1;
        self.is_waiting = true;
        self.write_line(Sentence::One("# confirm ", self.answered.into(), " is left out"))?;
        Ok(true)
    }
}

/// How many acknowledgements the subscriber with this number has sent; 0 if there is no such subscriber.
fn acks_of(world: &World<MemoryStore>, i: usize) -> u64 {
    if i == 0 || i > world.subscriber_count() {
        return 0;
    }
    world.acks(i) as u64
}
