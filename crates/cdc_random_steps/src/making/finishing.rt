//! The steps after the drawn ones, until every subscriber has received the end-of-stream marker.

use super::{Draw, Maker, acks_of};
use cdc_diagnostics::Sentence;
use cdc_progress::MemoryStore;
use cdc_types::{Limits, Step};
use cdc_world::World;
use std::alloc::{AllocError, Global};

impl Maker {
    /// Adds steps that make progress, until every subscriber has received the end-of-stream marker. None of them loses
    /// anything, so the connector restarts at most once. If the text reaches its limit before, its last line reports
    /// that.
    pub(super) fn finish(
        &mut self,
        alloc: Global,
        world: &mut World<MemoryStore>,
    ) -> Result<(), AllocError> {
        for _ in 0..Limits::RANDOM_STEPS {
            if all_ended(world) || !self.add_round(alloc, world)? {
                break;
            }
        }
        if !all_ended(world) {
            self.write_line(Sentence::One(
                "# the limit of ",
                u64::from(Limits::RANDOM_STEPS).into(),
                " steps is reached; not every subscriber has received the end mark",
            ))?;
        }
        Ok(())
    }

    /// Adds one step of each kind that makes progress, if the world takes it. Returns whether it took any.
    fn add_round(
        &mut self,
        alloc: Global,
        world: &mut World<MemoryStore>,
    ) -> Result<bool, AllocError> {
        let before = self.lines;
        let draw = self.draw_ending();
        self.add(alloc, world, draw)?;
        if self.runs && self.is_waiting {
            self.add(alloc, world, Draw::Step(Step::Crash))?;
        }
        if !self.runs {
            self.add(alloc, world, Draw::Step(Step::Start))?;
        }
        self.add(alloc, world, Draw::Step(Step::Poll))?;
        self.add(alloc, world, Draw::Step(Step::Publish))?;
        let packet = self.arrived.saturating_add(1);
        self.add(alloc, world, Draw::Step(Step::Arrive(packet)))?;
        let confirm = self.answered.saturating_add(1);
        self.add(alloc, world, Draw::Step(Step::Answer(confirm)))?;
        if self.has_news {
            self.add(alloc, world, Draw::Step(Step::Save))?;
        }
        for i in 0..world.subscriber_count() {
            self.add_delivery(alloc, world, i + 1)?;
        }
        Ok(self.lines != before)
    }

    /// Adds the next delivery of a subscriber, and the last acknowledgement that it has sent.
    fn add_delivery(
        &mut self,
        alloc: Global,
        world: &mut World<MemoryStore>,
        i: usize,
    ) -> Result<(), AllocError> {
        let number = i as u64;
        self.add(alloc, world, Draw::Step(Step::Send(number)))?;
        self.add(alloc, world, Draw::Step(Step::Take(number)))?;
        let draw = self.draw_ack(number, acks_of(world, i));
        self.add(alloc, world, draw)
    }

    /// Adds what this draw gives, if the world takes it and the text has room for it.
    fn add(
        &mut self,
        alloc: Global,
        world: &mut World<MemoryStore>,
        draw: Draw,
    ) -> Result<(), AllocError> {
        if self.lines < Limits::RANDOM_STEPS {
            self.try_draw(alloc, world, draw)?;
        }
        Ok(())
    }
}

/// Whether every subscriber has received the end-of-stream marker.
fn all_ended(world: &World<MemoryStore>) -> bool {
    for i in 0..world.subscriber_count() {
        if !world.subscriber(i + 1).ended() {
            return false;
        }
    }
    true
}
