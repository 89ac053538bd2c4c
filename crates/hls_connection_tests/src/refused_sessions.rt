//! The script on one thread with any one allocation refused. `tests/gate/fail_each_allocation` refuses each in turn.
//!
//! `ensures { result ≡ result }` states nothing: with a contract, a helper's body isn't checked again at each call.

ghost use Rattle.std.specs.Prelude.{◌≡◌};

use crate::channels::{first_snapshot, new_alone, run_all};
use crate::session_outcome::{JobRunOutcome, SessionOutcome, job_run_outcome};
use crate::test_origin::{Holdings, TestOrigin, send_twice};
use hls_connection::alone::Alone;
use hls_connection::events::NoObserver;
use hls_connection::keeper::Keeper;
use hls_connection::session::session_on;
use hls_fakes::PageWriter;
use hls_http::{Session, SessionEnd};
use std::alloc::Global;
use std::io::{Read, Write};
use std::sync::Wait;

/// A channel that one thread owns.
#[derive(Drop)]
struct AloneOrigin<'a, T: Wait> {
    rt: &'a T,
    own: Alone,
}

/// Serves a session of any keeper. (With a concrete keeper, the proof would go through everything that it holds.)
fn serve_at<T: Wait, K: Keeper, R: Read, W: Write>(
    rt: &T,
    session: &mut Session<R, W>,
    keeper: &mut K,
) -> SessionEnd
    ensures { result ≡ result }
{
    session_on(rt, session, keeper, &NoObserver)
}

impl<'a, T: Wait> TestOrigin for AloneOrigin<'a, T> {
    fn alloc(&self) -> Global {
        self.own.alloc
    }

    fn serve(&mut self, session: &mut Session<&[u8], PageWriter>) -> SessionEnd {
        serve_at(self.rt, session, &mut self.own)
    }

    fn swap_handles(&mut self) {}

    fn holdings(&mut self) -> Option<Holdings> {
        Some(Holdings::from_snapshot(&self.own.snapshot))
    }

    fn job_count(&self) -> usize {
        self.own.jobs.len()
    }

    fn run_jobs(&mut self) {
        let _ = run_all(self.own.alloc, &mut self.own);
    }

    fn job_outcome(&self, id: u32) -> JobRunOutcome {
        job_run_outcome(&self.own.jobs.get(u64::from(id)))
    }
}

/// Sends the script twice to a channel of one thread; `None` if the channel itself couldn't be allocated.
fn send_alone<T: Wait>(rt: &T, alloc: Global) -> Option<(SessionOutcome, bool)>
    ensures { result ≡ result }
{
    let own = new_alone(alloc, first_snapshot(alloc, None)?).ok()?;
    let mut kept = AloneOrigin { rt, own };
    send_twice(&mut kept)
}

#[test]
fn out_of_memory_is_wanted_once(rt: HostRuntime) {
    let alloc = rt.alloc();
    let (went, is_whole) = match send_alone(&rt, alloc) {
        Some(both) => both,
        None => send_alone(&rt, alloc).expect(&rt, "a channel"),
    };
    assert!(rt; went != SessionOutcome::Wrong);
    assert!(rt; is_whole);
}
