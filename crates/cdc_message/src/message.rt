//! The message of an event.

ghost use Rattle.std.specs.Prelude.{◌≡◌, IfOk, Ok, string_bytes};
ghost use Rattle.cdc_message.specs.Bodies.{body as body_of};
ghost use Rattle.cdc_message.specs.Headers.{headers_of_event, AreProperties};
ghost use Rattle.cdc_message.specs.Messages.{event_in, BelongTo};
ghost use Rattle.cdc_message.specs.OwnBodies.{IsOwnBody};
ghost use Rattle.cdc_message.specs.Reading.{read};
ghost use Rattle.cdc_types.specs.declared.events.Event.{Event};

use crate::encoding::encode;
use crate::headers::{headers_of, properties_at};
use cdc_types::{Event, Headers, Properties};
use std::alloc::{AllocError, Global};
use std::marker::Model;

/// A message about one event: its headers, properties and body. Contracts see the event.
#[derive(Drop)]
pub struct Message {
    headers: Headers,
    /// When the event happened, in nanoseconds.
    timestamp: u64,
    body: String,
}

impl Model for Message {
    ghost Value = { Event };

    ghost view = { λ message. event_in (string_bytes message.body) };

    ghost invariant = { λ message. BelongTo message.headers message.timestamp
        (string_bytes message.body) (event_in (string_bytes message.body)) };
}

impl Message {
    /// The message of an event. The error is out of memory.
    pub fn of(alloc: Global, event: &Event) -> Result<Message, AllocError>
        ensures { IfOk result (λ message. message ≡ event.now) }
    {
        let body = encode(alloc, event)?;
        Ok(Message {
            headers: headers_of(event),
            timestamp: event.timestamp,
            body,
        })
    }

    /// The headers by which the message is routed.
    pub fn headers(&self) -> Headers
        ensures { result ≡ headers_of_event self.now }
    {
        self.headers
    }

    /// The message's properties: their timestamp is in whole seconds.
    pub fn properties(&self) -> Properties
        ensures { AreProperties result self.now }
    {
        properties_at(self.timestamp)
    }

    /// When the message's event happened, in nanoseconds.
    pub fn timestamp(&self) -> u64
        ensures { result ≡ self.now.timestamp }
    {
        self.timestamp
    }

    /// The JSON text of the message's event.
    pub fn body(&self) -> &str
        ensures text { result.now ≡ body_of self.now }
        ensures reads_back { read result.now ≡ Ok self.now }
        ensures own { IsOwnBody result.now self.now }
    {
        self.body.as_str()
    }

    /// A message of the same event in memory of its own. The error is out of memory.
    pub fn try_copy(&self, alloc: Global) -> Result<Message, AllocError>
        ensures { IfOk result (λ copy. copy ≡ self.now) }
    {
        let Message {
            headers,
            timestamp,
            body,
        } = self;
        Ok(Message {
            headers: *headers,
            timestamp: *timestamp,
            body: body.clone()?,
        })
    }
}
