//! What the help of each command adds after its options.

pub const BOOKS: &str = "\
FILE is a script, and - is standard input. Its batches go to a ledger in the order of the file. The output is
the results of each batch, a number for each request, and then for each subscriber how far it is and its book: for each
account its pending debits, posted debits, pending credits and posted credits.

A script is a text of lines:
  subscriber all
  accounts 1000
  account id=1 ledger=700 code=10
  account id=2 ledger=700 code=10
  transfers 2000
  transfer id=1 debit_account_id=1 credit_account_id=2 amount=100 ledger=700 code=1
A subscriber's binding is all or any, and up to ten pairs of a header and its value, as in
  subscriber any event_type=two_phase_posted ledger=700

Examples:
  relayplum books examples/two-phase.script
  relayplum books examples/refusals.script --explain

Exit status:
  0  all was done
  1  a read, a write or memory failed: the last line of standard output names the fault, unless a write failed
  2  the arguments or the script are bad: standard error reports what was expected, and where";

pub const MESSAGES: &str = "\
FILE is a script, and - is standard input. Its batches go to a ledger in the order of the file. The output
is, for each event that it makes, a line with the message's headers and its timestamp in seconds, and a line with its
body, which is JSON.

With --queue I the output is the queue of subscriber I: a JSON object for each of its messages, and one for its end.
Each has a member previous: the timestamp in nanoseconds of the message before it in this queue, or 0 if it is the
first. A consumer that applies a message only if it has applied the one before misses nothing, whatever lies between.

Examples:
  relayplum messages examples/first-transfer.script
  relayplum messages examples/two-phase.script --queue 1

Exit status:
  0  all was done
  1  a read, a write or memory failed: the last line of standard output names the fault, unless a write failed
  2  the arguments or the script are bad: standard error reports what was expected, and where";

pub const SIMULATE: &str = "\
FILE is a script, and - is standard input. STEPS is a file with one step of a simulation in each line: batch,
close_ledger, start, start at N, crash, poll, publish, arrive K, answer K, save, send I, rewind I, break I, take I,
ack I K or close I. I is a subscriber and its queue, K counts the packets, the confirms or a subscriber's
acknowledgements ever sent, from 1, and N is a timestamp in nanoseconds. /dev/stdin reads the steps from standard input.

The steps are taken in order, up to the first that is refused. With --skip-refused each refused step is skipped, so any
part of a step file is one. Random steps are printed as a step file. The output is
the results of the batches that were taken, how many steps were done, what the session has saved, and for each
subscriber how far it is and its book.

Examples:
  relayplum simulate examples/two-phase.script examples/two-phase.steps
  relayplum simulate examples/two-phase.script examples/faults.steps --trace

Exit status:
  0  all was done
  1  a read, a write or memory failed: the last line of standard output names the fault, unless a write failed; or a
     step was refused
  2  the arguments, the script or the steps are bad: standard error reports what was expected, and where";

pub const RUN: &str = "\
FILE is a script, and - is standard input. It is run on threads: the ledger, each client, the connector, the broker and
each subscriber have one each. The N of a fault is counted over the whole run, from 1. The output is what the command
books prints, for that run.

Examples:
  relayplum run examples/first-transfer.script --lose-confirm 1
  relayplum run examples/first-transfer.script --progress saved

Exit status:
  0  all was done
  1  a read, a write, memory, a thread, the store of progress or the run itself failed: the last line of standard
     output names the fault, unless a write failed
  2  the arguments or the script are bad: standard error reports what was expected, and where";

pub const FOLLOW: &str = "\
FILE is a stream of messages, one JSON object in each line, and - is standard input. A line is the body of a message,
as the command messages prints it; or an object with a member body, which is such a body; or the end of the stream, an
object with the member end, which is true. Empty lines and lines that begin with event_type= are ignored.

Each event that is later than the last one is applied to the book, and any other one is a duplicate. So the stream has
to keep its order: an event that a later one overtakes is lost. With --chained that is noticed: each line has a member
previous, the timestamp of the message before it in its queue (0 before the first), and an event is applied only if that
is the last event that was received. If it isn't, there is a gap, and following stops. So if each line is one of the
queue, no event is lost or applied twice, whatever was lost, repeated or reordered on the way. A line of another queue
is a gap too, unless it names the last event that was received: lines are compared with that, not believed.

An event that is later than the end of the stream contradicts it, and following stops there.

With --checked, no message has to name the one before. Each event shows the balances of its two accounts after it. An
event that is later than the last one applied of each of its accounts is applied if these balances, and the pending
transfer that it settles, follow from the events that were applied. If they don't, an earlier event of one of its
accounts is missing, and following stops. With --skip-gaps it goes on with all other accounts; when the missing event
comes, it is applied, and its accounts go on. The stream has to begin with the first event of each account, and may lack
whole accounts, such as other ledgers, but no kinds or codes. --binding chooses among the events that were applied. What
moves and holds nothing isn't missed, nor is a hold that is lost with its release, nor what follows the last event of an
account. If a release and a new hold of the same amount are both lost, the next events pass, and the release of the new
hold is refused for ever: begin a new book.

With --baseline the stream may begin anywhere: the first event of each account is taken as it is, and a pending transfer
that the stream lacks is taken to hold what its post, void or expiry releases. Then no posted money is missed between
two events of an account, but a hold may be, if such a release hides it. The book is resumed only with --baseline.

With --from-book, a new book begins as a copy of the checked book in FILE, with its accounts and open pending transfers.
That one has to have the same binding, and to have begun by --baseline or not, as this one does. A book that is there
already is resumed only if it still has the state of FILE.

With --book, the book is saved after every N lines, each time that no whole line of a pipe or a terminal is waiting, and
at the end. After each save a line with saved and the timestamp of the last event is printed: events up to there may be
acknowledged, and none later. If following is stopped at any time and started again with that book, it goes on where the
book was saved, and what was applied before is a duplicate.

With --after, a new book begins after the event with that timestamp: with --chained at the line that has it as its
previous, else at the first later event. A saved book is resumed only if that event is the last one that it has seen.

With --expect, the output is the expected result of each line instead: an object with its number, its result (applied,
duplicate, gap, passed, end or nothing), how many events are applied, the last one's timestamp, and the accounts that it
changed. With --checked, a gap also has the rule, and the balance that does not follow or the pending transfer that is
not open. So a consumer of your own can be tried with any stream, also with one that lacks messages.

With --book sqlite:FILE, the book is kept in an SQLite file, which other programs may read between saves: the table
accounts has the balances, and the table book the timestamp of the last event applied and the count of these events.
A program that is in the middle of reading is waited for, for as many seconds as --busy names; standard error reports
that. A save that waits longer fails.

With --sql NAME, the output is SQL for PostgreSQL, which psql executes: for each save one transaction over the tables of
the schema NAME. It moves the position in the table book from where this follower left it, and fails if it isn't there;
and it puts the accounts that changed into the table accounts; with --events, it also adds the events that were applied
to the table events. psql then prints saved and the timestamp of the last event, and that alone may be acknowledged.
FILE of --resume has the position, as psql prints it. With --sql-schema NAME, the output is the SQL that makes these
tables; name the same --chained, --binding and --events.

Otherwise the output is these lines, and at the end how far the stream was applied and its book: for each account its
pending debits, posted debits, pending credits and posted credits.

Examples:
  relayplum messages examples/two-phase.script | relayplum follow
  consume-from-my-queue | relayplum follow --chained --book ann.book
  consume-from-the-ledger | relayplum follow --checked --book ann.book
  consume-from-my-queue | relayplum follow --chained --book sqlite:ann.db
  relayplum follow --chained --sql-schema bank | psql -X -v ON_ERROR_STOP=1 -d ledger
  psql -XAt -d ledger -c 'select position from bank.book' >at
  consume-from-my-queue | relayplum follow --chained --sql bank --resume at | psql -X -d ledger

Exit status:
  0  the stream ended
  1  a read, a write, memory or the store of the book failed, which may pass: the last line of standard output names the
     fault, unless a write failed
  2  the arguments or a line of the stream are bad, or the book is another one than was asked for: standard error reports
     what was expected, and where
  3  there is a gap, a line contradicts the end, or with --checked an event doesn't follow: somebody has to look";

pub const AUDIT: &str = "\
FILE is a stream of messages from a ledger's first event on, one JSON object in each line, and - is standard input. Its
lines are those that the command follow reads.

Each event shows the balances of its two accounts after it, so it has to follow from the events before it: its timestamp
is later, its transfer is new, a post, void or expiry names a pending transfer that came before and hasn't ended, and
each of the eight balances is the one before with this event's amount. The first event that doesn't follow is refused,
with the rule that it breaks and the numbers. So a lost, duplicated, swapped or changed event is found;
docs/AUDIT.md lists what can't be.

Another ledger of this kind may have more flags. With --foreign they are ignored, and a transfer that is stored with
such a flag may have any timestamp.

With --duplicates an event that isn't later than the last accepted one is skipped and counted, so redeliveries don't
stop the audit. It isn't compared with what came before: of such an event no change is found, nor that it is out of
order.

With --state, what was audited is saved after every N lines, each time that no whole line of a pipe or a terminal is
waiting, and at the end. After each save a line with saved and the timestamp of the last accepted event is printed. If
auditing is stopped at any time and started again with that file, it goes on there: the stream has to begin with the
event after that one, or with --duplicates anywhere before.

The output is these lines; then how many events are accepted and the last one's timestamp; with --duplicates how many
events were skipped; with --book also the balances that the accepted ones show last, as the command books prints them;
and at the end the line of the event that is refused, if one is.

Examples:
  relayplum messages examples/two-phase.script | relayplum audit
  relayplum audit archive.jsonl --book
  relayplum audit today.jsonl --state audit.state
  consume-from-my-queue | relayplum audit --duplicates

Exit status:
  0  all events are accepted
  1  a read, a write, memory or the store of the state failed, which may pass: the last line of standard output names the
     fault, unless a write failed
  2  the arguments or a line of the stream are bad, or the state is another one than was asked for: standard error
     reports what was expected, and where
  3  an event is refused: somebody has to look";

pub const CHAIN: &str = "\
FILE is a stream of messages in their order, and - is standard input. Its lines are those that the command follow reads
without --chained, such as a ledger's own messages, which name no message before them.

For each event, and each queue whose binding takes it, the output has the line that messages --queue prints, with the
number of the queue: its member previous is the timestamp of the event before it in this queue, or 0 if it is the first.
At the end of the stream each queue ends by such a line. So where one reader still has the order, the command writes it
into each message, and follow --chained notices whatever is lost or overtaken behind it. It notices no loss before it.

An event that is not later than the last one is a duplicate, and is skipped. Standard error reports how many were. An
event that is later than the end of the stream contradicts it, and the command stops there.

With --state, the place of each queue is saved after every N lines, each time that no whole line of a pipe or a terminal
is waiting, and at the end, always after the lines before it were written. If the command is stopped at any time and
started again with that file, it may print lines again, and leaves none out. The stream may begin anywhere before.

Examples:
  relayplum messages examples/two-phase.script | relayplum chain --queue all
  consume-from-the-ledger | relayplum chain --queue 'all ledger=700' --queue any --state chain.state | publish

Exit status:
  0  the stream ended
  1  a read, a write, memory or the store of the state failed, which may pass: standard error reports it
  2  the arguments or a line of the stream are bad, or the state is another one than was asked for: standard error
     reports what was expected, and where
  3  a line contradicts the end: somebody has to look";

pub const CONSUME: &str = "\
The command speaks AMQP 0-9-1 with a RabbitMQ server on standard input and output, and opens no socket of its own: socat
connects it. Messages are standard error's.

Each delivery is a message of the queue, and is followed as the command follow does. Its body is a line of that command,
except that a blank one is none; a message of the type end is the end of the stream. With --chained, what comes before a
message is its header previous, or the member of its body if it has no such header.

The book is saved after every N deliveries, and each time that no whole frame is waiting. Deliveries are acknowledged
once the book that has their events is saved, and none is acknowledged before. So if the command is stopped at any time
and started again with that book, the server delivers again what was not acknowledged: what the book has is a duplicate,
and is acknowledged, and what it lacks is applied.

The command ends at the end of the stream, after the N deliveries of --limit, at a message that is no event, at a gap, at
a message that contradicts the end, or when the connection ends. A message at which it ends is not acknowledged, and
neither is any after it. Standard error names its delivery tag, whether it was delivered before, how often if the queue
counts that, and the reason. With --park, a message that is no event is rejected instead, and isn't queued again: the
queue's dead-letter exchange gets it, if there is one. The report counts such messages. Of a chained queue, one that is
rejected was none of its events, or the next event shows a gap.

The password is the first line of the file that --password-file names, or the value of the variable RELAYPLUM_PASSWORD.

With --report, that file is replaced at the end, and at most once a second as the book is saved; then standard error has
a line of the counts. The file has the status, the reason, the code and the text with which the server closed, the tag of
the delivery at which the command stopped and its redelivery, the counts, and the timestamp of the last event seen.

Examples:
  socat -t 30 TCP:rabbit:5672 EXEC:'relayplum consume --queue relayplum.1 --chained --book ann.book --user ann
  --password-file secret --report ann.status'
  socat -t 30 OPENSSL:rabbit:5671,cafile=ca.pem EXEC:'relayplum consume --queue relayplum.1 --chained --book ann.book'

Exit status:
  0  the stream ended, or --limit was reached
  1  a failure that may pass, such as a lost connection or a book that another program uses: start the command again
  2  the arguments or the password are bad; or the server refuses the user, the virtual host or the queue; or a message
     is no event: standard error reports which
  3  there is a gap, or a message contradicts the end";
