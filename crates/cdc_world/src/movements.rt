//! Reads what a step moves from a world: before the step what it takes away, and after it what it brought.

ghost use Rattle.std.specs.Prelude.{◌≡◌, ◌<◌, ◌≤◌, IfSome, Some, length, option_map};
ghost use Rattle.std.specs.Option.{option_and_then};
ghost use Rattle.cdc_world.specs.Moved.{acknowledged, brought, confirm_answered, events_offered, first_taken, flight_lost, last_sent, leaving, packet_arrived, packet_sent, progress_saved, queue_rewound, session_lost, session_started};
ghost use Rattle.cdc_world.specs.Stands.{Stands};
ghost use Rattle.cdc_world.specs.Worlds.{Finds, Subscription, WorldState, numbered};

use crate::moved::{Moved, PacketName};
use crate::steps::Did;
use crate::world::World;
use cdc_progress::ProgressStore;
use cdc_types::Step;

impl<S: ProgressStore> World<S> {
    /// The number of a subscriber, from 1 on, or `None` if there is no subscriber with this number.
    pub fn subscriber_number(&self, i: u64) -> Option<usize>
        ensures first { IfSome result (λ n. 0 < n) }
        ensures last { IfSome result (λ n. n ≤ length self.now.actors.subscriptions) }
        ensures finds { (w : WorldState) → Stands self.now w → Finds w.subscriptions i result }
    {
        let number = i as usize;
        if 0 < number && number <= self.subscriber_count() {
            Some(number)
        } else {
            None
        }
    }

    /// The position up to which all are acknowledged in the queue with this number, from 1 on.
    pub fn acked(&self, i: usize) -> u64
        requires first { 0 < i }
        requires last { i ≤ length self.now.actors.subscriptions }
        ensures { (w : WorldState) → Stands self.now w → (s : Subscription)
            → numbered w.subscriptions i ≡ Some s → result ≡ s.cursor.acked }
    {
        self.broker().acked(i)
    }

    /// What a step takes away, if it is done.
    pub(crate) fn leaving(&self, step: &Step) -> Option<Moved>
        ensures { (w : WorldState) → Stands self.now w → result ≡ leaving w step.now }
    {
        match step {
            Step::Crash => self.session_lost(),
            Step::Break(i) => self.flight_lost(*i),
            Step::Take(i) => self.first_taken(*i),
            _ => None,
        }
    }

    /// What a step with this answer has brought.
    pub(crate) fn brought(&self, step: &Step, did: &Did) -> Option<Moved>
        ensures { (w : WorldState) → Stands self.now w → result ≡ brought w step.now did.now }
    {
        match step {
            Step::Start | Step::StartAt(_) => self.session_started(),
            Step::Poll => self.events_offered(),
            Step::Publish => self.packet_sent(),
            Step::Arrive(k) => self.packet_arrived(*k, did),
            Step::Answer(k) => self.confirm_answered(*k),
            Step::Save => self.progress_saved(),
            Step::Send(i) => self.last_sent(*i),
            Step::Rewind(i) => self.queue_rewound(*i),
            Step::Ack(i, _) => self.acknowledged(*i),
            _ => None,
        }
    }

    /// The loss of the session that runs, before the crash.
    fn session_lost(&self) -> Option<Moved>
        ensures { (w : WorldState) → Stands self.now w
            → result ≡ option_map session_lost w.session }
    {
        let session = self.session()?;
        Some(Moved::lost(session))
    }

    /// The start of the session that runs.
    fn session_started(&self) -> Option<Moved>
        ensures { (w : WorldState) → Stands self.now w
            → result ≡ option_map session_started w.session }
    {
        let session = self.session()?;
        Some(Moved::started(session))
    }

    /// What the session was just offered.
    fn events_offered(&self) -> Option<Moved>
        ensures { (w : WorldState) → Stands self.now w
            → result ≡ option_map events_offered w.session }
    {
        let session = self.session()?;
        Some(Moved::offered(session))
    }

    /// What the session has just saved.
    fn progress_saved(&self) -> Option<Moved>
        ensures { (w : WorldState) → Stands self.now w
            → result ≡ option_map progress_saved w.session }
    {
        let session = self.session()?;
        Some(Moved::saved(session))
    }

    /// The packet that was sent last.
    fn packet_sent(&self) -> Option<Moved>
        ensures { (w : WorldState) → Stands self.now w → result ≡ packet_sent w }
    {
        let number = self.packets() as u64;
        let packet = self.packet(number)?;
        Some(Moved::PacketSent {
            number,
            packet: PacketName::of(packet),
        })
    }

    /// The packet that came to the broker, and what became of it.
    fn packet_arrived(&self, k: u64, did: &Did) -> Option<Moved>
        ensures { (w : WorldState) → Stands self.now w
            → result ≡ option_and_then (packet_arrived w did.now) (numbered w.packets k) }
    {
        let packet = PacketName::of(self.packet(k)?);
        match did {
            Did::Arrived(true) => Some(Moved::PacketTaken { packet }),
            Did::Arrived(false) => Some(Moved::PacketIgnored {
                packet,
                connection: self.broker().connection(),
                next_tag: self.broker().next_tag(),
            }),
            _ => None,
        }
    }

    /// The confirm that the session received.
    fn confirm_answered(&self, k: u64) -> Option<Moved>
        ensures { (w : WorldState) → Stands self.now w → result
            ≡ option_and_then (λ course. option_and_then (confirm_answered course)
            (numbered w.confirms k)) w.session }
    {
        let session = self.session()?;
        let confirm = self.confirm(k)?;
        Moved::answered(session, *confirm)
    }

    /// The delivery that was sent last of those in flight.
    fn last_sent(&self, i: u64) -> Option<Moved>
        ensures { (w : WorldState) → Stands self.now w
            → result ≡ option_and_then last_sent (numbered w.subscriptions i) }
    {
        let number = self.subscriber_number(i)?;
        let delivery = self.last_in_flight(number)?;
        Some(Moved::sent(delivery))
    }

    /// The delivery that comes first of those in flight.
    fn first_taken(&self, i: u64) -> Option<Moved>
        ensures { (w : WorldState) → Stands self.now w
            → result ≡ option_and_then first_taken (numbered w.subscriptions i) }
    {
        let number = self.subscriber_number(i)?;
        let delivery = self.first_in_flight(number)?;
        Some(Moved::taken(delivery))
    }

    fn flight_lost(&self, i: u64) -> Option<Moved>
        ensures { (w : WorldState) → Stands self.now w
            → result ≡ option_map flight_lost (numbered w.subscriptions i) }
    {
        let number = self.subscriber_number(i)?;
        Some(Moved::FlightLost {
            count: self.flight(number),
            acked: self.acked(number),
        })
    }

    fn queue_rewound(&self, i: u64) -> Option<Moved>
        ensures { (w : WorldState) → Stands self.now w
            → result ≡ option_map queue_rewound (numbered w.subscriptions i) }
    {
        let number = self.subscriber_number(i)?;
        Some(Moved::QueueRewound {
            acked: self.acked(number),
        })
    }

    fn acknowledged(&self, i: u64) -> Option<Moved>
        ensures { (w : WorldState) → Stands self.now w
            → result ≡ option_map acknowledged (numbered w.subscriptions i) }
    {
        let number = self.subscriber_number(i)?;
        Some(Moved::Acknowledged {
            acked: self.acked(number),
        })
    }
}
