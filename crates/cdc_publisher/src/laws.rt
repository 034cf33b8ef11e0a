//! Laws of the events that sessions want.

ghost use Rattle.cdc_publisher.specs.Polls.{ConfirmsWiden, PacketsKeep};

/// Does nothing; each postcondition holds for every course of a session. What a session wanted when it was asked, it
/// still wants, and perhaps more, whatever it sends and whichever confirms it takes, until it is offered a reply.
pub fn poll_laws()
    ensures confirms { ConfirmsWiden }
    ensures packets { PacketsKeep }
{}
