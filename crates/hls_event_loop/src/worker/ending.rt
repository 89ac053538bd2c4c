//! How a worker ends before it has served its number of connections.

ghost use Rattle.std.specs.Prelude.{◌≡◌, ◌<◌};
ghost use Rattle.hls_event_loop.specs.Validity.{AllValid};

use super::Worker;
use crate::activity::ConnectionStage;
use crate::handler::Handler;
use crate::slot::Slot;

/// How long requests and responses may take once the workers are to end, in milliseconds.
const LAST_RESPONSES_MS: u64 = 250;

/// How long a request without an end of its own may take to end, if it is between two parts, in milliseconds.
const LAST_PARTS_MS: u64 = 40;

/// How a connection ends with its worker.
#[derive(Clone, Copy, PartialEq, Eq, Drop)]
enum Ending {
    /// It continues.
    None,
    /// It is closed between two requests.
    Idle,
    /// Its request or its response is cut short.
    CutShort,
}

/// How a connection ends, this many milliseconds after its worker was to end. What it has received is read first.
fn find_ending<H: Handler>(slot: &Slot<H::Connection>, handler: &H, passed_ms: u64) -> Ending
    ensures { result ≡ Ending.CutShort → passed_ms < 250 → H.between_parts slot.now.connection }
{
    if slot.activity.stage == ConnectionStage::Idle {
        return Ending::Idle;
    }
    if passed_ms >= LAST_RESPONSES_MS {
        return Ending::CutShort;
    }
    if passed_ms < LAST_PARTS_MS || slot.queued {
        return Ending::None;
    }
    if handler.is_between_parts(&slot.connection) {
        Ending::CutShort
    } else {
        Ending::None
    }
}

impl<'a, H: Handler + Drop> Worker<'a, H> {
    /// Once the workers are to end, accepts no more connections and closes those that have no request, then those between two parts of a
    /// request without an end, and all others when the time for the last responses is over.
    pub(super) fn end_connections(&mut self)
        requires valid { AllValid H.valid self.old.handler self.old.slots }
        ensures valid { AllValid H.valid self.new.handler self.new.slots }
    {
        let Some(since_ms) = self.worker_loads.ending_since_ms() else {
            return;
        };
        self.accepts_left = 0;
        let passed_ms = self.now.saturating_sub(since_ms);
        for key in 0..self.slots.capacity() {
            self.end_connection(key, passed_ms);
        }
    }

    /// Gives a connection a turn, whatever the kernel reported, and closes it if it is time.
    fn end_connection(&mut self, key: usize, passed_ms: u64)
        requires valid { AllValid H.valid self.old.handler self.old.slots }
        ensures valid { AllValid H.valid self.new.handler self.new.slots }
    {
        if let Some(slot) = self.slots.get_mut(key) {
            slot.readiness.try_again();
        }
        self.run_and_reschedule(key);
        let Some(slot) = self.slots.get(key) else {
            return;
        };
        match find_ending(slot, &self.handler, passed_ms) {
            Ending::None => {}
            Ending::Idle => self.close(key),
            Ending::CutShort => self.abandon_connection(key),
        }
    }
}
