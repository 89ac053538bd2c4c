//! Sessions: the requests of one reader, and their responses to one writer.

ghost use Rattle.hls_api.specs.{Acts.Knowledge, OtherActors.OtherActors};
ghost use Rattle.hls_http.specs.BufferedReader.{unread_of};
ghost use Rattle.hls_connection.specs.{FailureCounts.SessionCounts, RunsSession.RunsSession, Moments.{ContinuesRun, moment}};
ghost use Rattle.hls_connection.specs.Traces.{IsSuitedTo, WantsMore, trace_at};

use crate::events::{Observer, report_some};
use crate::keeper::Keeper;
use crate::machine::{ConnectionMachine, ConnectionNotes};
use hls_api::route::ServedChannel;
use hls_http::{ReadOutcome, Session, SessionEnd, write_whole};
use std::io::{Read, Write};
use std::sync::Wait;

/// Writes the next bytes. Returns how the session ends if that fails.
fn write_pending<R: Read, W: Write>(
    machine: &mut ConnectionMachine,
    session: &mut Session<R, W>,
) -> Option<SessionEnd>
    ensures { (m : OtherActors) (known : Knowledge) → ContinuesRun m (moment R.remaining W.contents machine.old session.old known) result
        (moment R.remaining W.contents machine.new session.new known) }
{
    let next = machine.output.chunk();
    if !write_whole(&mut session.writer, next) {
        return Some(SessionEnd::WriteFailed);
    }
    let count = next.len();
    machine.mark_sent(count);
    None
}

/// Reads once. Returns how the session ends if that fails.
fn read_more<O: Observer, R: Read, W: Write>(
    machine: &mut ConnectionMachine,
    session: &mut Session<R, W>,
    observer: &O,
) -> Option<SessionEnd>
    requires wants { WantsMore (trace_at machine.old (unread_of session.old.source)) }
    ensures { (m : OtherActors) (known : Knowledge) → ContinuesRun m (moment R.remaining W.contents machine.old session.old known) result
        (moment R.remaining W.contents machine.new session.new known) }
{
    let before = session.source.input.unread().len();
    match session.source.input.read_from(&mut session.source.reader) {
        ReadOutcome::Data => {
            machine.note_read(&session.source.input, before, false);
            None
        }
        ReadOutcome::Eof => {
            machine.note_read(&session.source.input, before, true);
            None
        }
        ReadOutcome::Failed => {
            report_some(observer, machine.read_failure_event());
            Some(SessionEnd::ReadFailed)
        }
    }
}

/// Makes one step: of the connection, a write, or a read. Returns how the session ends, if it does.
fn step_session<K: Keeper, O: Observer, R: Read, W: Write>(
    machine: &mut ConnectionMachine,
    session: &mut Session<R, W>,
    keeper: &mut K,
    observer: &O,
) -> Option<SessionEnd>
    requires suits { IsSuitedTo (K.known keeper.old) (trace_at machine.old (unread_of session.old.source)) }
    ensures { ContinuesRun K.other_actors (moment R.remaining W.contents machine.old session.old (K.known keeper.old)) result
        (moment R.remaining W.contents machine.new session.new (K.known keeper.new)) }
{
    if machine.advance(&mut session.source.input, keeper, None, observer) {
        return None;
    }
    if !machine.output.is_empty() {
        return write_pending(machine, session);
    }
    if let Some(end) = machine.end() {
        return Some(end);
    }
    read_more(machine, session, observer)
}

/// Serves the requests of a session, each up to its response before the next is read, until the input ends, a response says
/// `Connection: close`, or the reader or the writer fails. May wait for its keeper.
///
/// Units aren't mended. The memory of a request is freed after its response. After an allocation failure the fixed response is written
/// and the session ends. The runtime is for a session that never ends.
pub fn session_on<K: Keeper, O: Observer, T: Wait, R: Read, W: Write>(
    rt: &T,
    session: &mut Session<R, W>,
    keeper: &mut K,
    observer: &O,
) -> SessionEnd
    ensures session { RunsSession K.other_actors R.remaining W.contents session.old session.new (K.known keeper.old) (K.known keeper.new) result }
    ensures counts { SessionCounts session.old session.new result }
{
    let channel = ServedChannel {
        renditions: keeper.rendition_count(),
        mending: None,
        shown_us: None,
    };
    let mut machine = ConnectionMachine::new(channel, ConnectionNotes::new());
    machine.note_read(&session.source.input, 0, false);
    for _ in rt.forever() {
        if let Some(end) = step_session(&mut machine, session, keeper, observer) {
            return end;
        }
    }
    unreachable!()
}
