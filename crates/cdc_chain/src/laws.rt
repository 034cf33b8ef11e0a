//! Laws of chains. They are the postconditions of functions that do nothing.

ghost use Rattle.cdc_chain.specs.Laws.{EachQueueGetsItsLines, EndedChainsMakeNothing, PlainLinesAreThoseOfTheQueue};
ghost use Rattle.cdc_chain.specs.Laws.{FollowersKeepAPrefix, QueueLinesAreOfQueues, StreamsGoOn, TakenEventsRise};

/// Does nothing. The events that are taken of a stream rise, and each queue gets the lines of those that its binding
/// takes, each with the timestamp of the event before it there, and of the end once that is received. Without their
/// numbers these are the lines that `messages --queue` prints. A chain goes on from what is kept: the first line
/// after it names the last event of the queue before it.
pub fn each_queue_gets_its_lines()
    ensures rising { TakenEventsRise }
    ensures lines { EachQueueGetsItsLines }
    ensures plain { PlainLinesAreThoseOfTheQueue }
    ensures ended { EndedChainsMakeNothing }
{}

/// Does nothing. A stream comes to the same if it is cut after a line: the chain of the first part goes on with the
/// second part from what is kept. So what is printed of the first part is a prefix of what is printed of all.
pub fn streams_go_on()
    ensures { StreamsGoOn }
{}

/// Does nothing. Each line of a queue of a chain from the first event on is an entry of that queue: an event with the
/// timestamp of the event before it, or the end with that of the last one. So whatever lines of a queue reach a
/// follower of it, in whatever order, number and choice, it has applied a prefix of the queue.
pub fn queue_lines_are_of_queues()
    ensures lines { QueueLinesAreOfQueues }
    ensures followers { FollowersKeepAPrefix }
{}
