//! Connections whose response waits for a change: here, for a gate to open.
//!
//! `ensures { result ≡ result }` states nothing: with a contract, a helper's body isn't checked again at each call.

ghost use Rattle.std.specs.Prelude.{◌≡◌};

use crate::echo_handler::{EchoGate, EchoHandler, HELD, HELD_BRIEFLY};
use crate::loops::{connect_client, is_disconnected, is_echoed, open_worker_io};
use hls_event_loop::{WorkerLoads, run_worker};
use hls_time::monotonic_ms;
use std::alloc::Global;
use std::io::{self, Read, Write};
use std::net::{Net, Shutdown, SocketAddr, TcpListener, TcpStream};
use std::sync::Wait;
use std::sync::atomic::{AtomicU64, Ordering};
use std::thread::{self, Threads};
use std::time::{Clock, Duration};

/// How many clients wait at once.
const MANY: usize = 200;

/// How often connections wait until something happens. By the ticks alone, each time would take a second.
const ROUNDS: usize = 10;

/// The most time for that, in milliseconds.
const QUICK_MS: u64 = 6000;

/// What the clients of a worker do.
#[derive(Clone, Copy, PartialEq, Eq)]
enum WaitScenario {
    /// One waits, is woken, and waits again; another is served meanwhile.
    Woken,
    /// Many wait, and one wake is for all.
    Many,
    /// One after the other resets its connection while it waits.
    Reset,
    /// One waits, and nothing wakes it.
    Deadline,
    /// One ends its side while it waits.
    HalfClose,
    /// One sends more bytes while it waits.
    Pipelined,
    /// All places are in use by connections that wait.
    Full,
}

impl WaitScenario {
    /// How many places the worker has, how many connections it accepts, and its idle timeout in seconds.
    fn size(self) -> (u64, u64, u64) {
        match self {
            WaitScenario::Many => (256, MANY as u64 + 1, 3600),
            WaitScenario::Reset => (8, ROUNDS as u64 + 1, 3600),
            WaitScenario::Deadline => (8, 2, 1),
            WaitScenario::Full => (2, 3, 3600),
            _ => (8, 2, 3600),
        }
    }
}

/// A worker that the clients of a scenario connect to.
#[derive(Clone, Copy)]
struct TestWorker<'a> {
    address: SocketAddr,
    loads: &'a WorkerLoads,
    gate: &'a EchoGate,
}

impl<'a> TestWorker<'a> {
    /// Opens the gate, and wakes what waits.
    fn open_gate(&self) {
        self.gate.open.store(true, Ordering::SeqCst);
        self.loads.wake_waiting();
    }

    /// Closes the gate, and forgets which bytes were held.
    fn close_gate(&self) {
        self.gate.open.store(false, Ordering::SeqCst);
        self.gate.held.store(0, Ordering::SeqCst);
    }
}

/// Whether a counter reaches a value in ten seconds.
fn reaches<R: Clock>(rt: &R, counter: &AtomicU64, value: u64) -> bool {
    for _ in 0..2000 {
        if counter.load(Ordering::SeqCst) >= value {
            return true;
        }
        thread::sleep(rt, Duration::from_millis(5));
    }
    false
}

/// Sends bytes.
fn send(stream: &TcpStream, bytes: &[u8]) -> bool
    ensures { result ≡ result }
{
    let mut stream = stream;
    stream.write_all(bytes).is_ok()
}

/// Whether a byte comes, and nothing else with it.
fn receives(stream: &TcpStream, byte: u8) -> bool
    ensures { result ≡ result }
{
    let mut stream = stream;
    let mut back = [0; 4];
    match stream.read(&mut back) {
        Ok(count) => count == 1 && back[0] == byte,
        Err(_) => false,
    }
}

/// Whether a client that waits several times is woken each time, while another is served.
fn wake_often<R: Clock>(
    rt: &R,
    worker: TestWorker<'_>,
    first: &TcpStream,
    second: &TcpStream,
) -> bool {
    for _ in 0..ROUNDS {
        worker.close_gate();
        let waits = send(first, &[HELD]) && reaches(rt, &worker.gate.held, 1);
        if !waits || !is_echoed(second, 7) {
            return false;
        }
        worker.open_gate();
        if !receives(first, HELD) {
            return false;
        }
    }
    true
}

/// Has each client wait, and wakes them once. Returns whether each gets its byte.
fn wake_all_once<R: Clock>(
    rt: &R,
    worker: TestWorker<'_>,
    clients: &[TcpStream],
    other: &TcpStream,
) -> bool {
    worker.close_gate();
    for client in clients {
        if !send(client, &[HELD]) {
            return false;
        }
    }
    if !reaches(rt, &worker.gate.held, MANY as u64) || !is_echoed(other, 7) {
        return false;
    }
    worker.open_gate();
    for client in clients {
        if !receives(client, HELD) {
            return false;
        }
    }
    true
}

/// Whether many clients that wait several times are woken each time.
fn wake_many<R: Net<Stream = TcpStream> + Clock>(
    rt: &R,
    alloc: Global,
    worker: TestWorker<'_>,
    other: &TcpStream,
) -> io::Result<bool> {
    let mut clients = Vec::with_capacity(alloc, MANY)?;
    for _ in 0..MANY {
        clients.push(connect_client(rt, worker.address)?)?;
    }
    for _ in 0..ROUNDS {
        if !wake_all_once(rt, worker, clients.as_slice(), other) {
            return Ok(false);
        }
    }
    Ok(true)
}

/// Has a client wait, and resets its connection: closing a socket with an unread byte does. Returns whether it waited.
fn reset<R: Net<Stream = TcpStream> + Clock>(
    rt: &R,
    worker: TestWorker<'_>,
    waiting: u64,
) -> io::Result<bool> {
    let client = connect_client(rt, worker.address)?;
    let is_sent = send(&client, &[1]) && client.peek(&mut [0])? == 1;
    Ok(is_sent && send(&client, &[HELD]) && reaches(rt, &worker.gate.held, waiting))
}

/// Whether connections that are reset while they wait are given up.
fn reset_often<R: Net<Stream = TcpStream> + Clock>(
    rt: &R,
    worker: TestWorker<'_>,
    other: &TcpStream,
) -> io::Result<bool> {
    for count in 1..ROUNDS as u64 + 1 {
        if !reset(rt, worker, count)? || !reaches(rt, &worker.gate.abandoned, count) {
            return Ok(false);
        }
    }
    Ok(is_echoed(other, 7))
}

/// Whether a connection that ended its side while it waits gets its byte.
fn half_close<R: Clock>(
    rt: &R,
    worker: TestWorker<'_>,
    client: &TcpStream,
    other: &TcpStream,
) -> io::Result<bool> {
    let waits = send(client, &[HELD]) && reaches(rt, &worker.gate.held, 1);
    client.shutdown(Shutdown::Write)?;
    let is_served = waits && is_echoed(other, 7);
    worker.open_gate();
    Ok(is_served && receives(client, HELD) && is_disconnected(client))
}

/// Whether bytes that are sent while a connection waits stay unread until it is woken.
fn pipeline<R: Clock>(
    rt: &R,
    worker: TestWorker<'_>,
    client: &TcpStream,
    other: &TcpStream,
) -> io::Result<bool> {
    let mut client = client;
    let waits = send(client, &[HELD, 1]) && reaches(rt, &worker.gate.held, 1);
    let is_sent = waits && send(client, &[2, 3]) && is_echoed(other, 7);
    // A tick passes, in which the connection has turns.
    thread::sleep(rt, Duration::from_millis(1200));
    let is_unread = is_echoed(other, 8) && worker.gate.read.load(Ordering::SeqCst) == 3;
    worker.open_gate();
    let mut back = [0; 4];
    client.read_exact(&mut back)?;
    Ok(is_sent && is_unread && back == [HELD, 1, 2, 3])
}

/// Whether connections that wait are never evicted: another is accepted once they were answered.
fn keep_places<R: Net<Stream = TcpStream> + Clock>(
    rt: &R,
    worker: TestWorker<'_>,
    first: &TcpStream,
    second: &TcpStream,
) -> io::Result<bool> {
    let wait = send(first, &[HELD]) && send(second, &[HELD]);
    let are_held = wait && reaches(rt, &worker.gate.held, 2);
    let third = connect_client(rt, worker.address)?;
    let is_sent = send(&third, &[3]);
    thread::sleep(rt, Duration::from_millis(200));
    let is_unread = worker.gate.read.load(Ordering::SeqCst) == 2;
    worker.open_gate();
    let are_answered = receives(first, HELD) && receives(second, HELD);
    Ok(are_held && is_sent && is_unread && are_answered && receives(&third, 3))
}

/// Whether the clients of a scenario get what they expect. All of them close at the end.
fn clients_succeed<R: Net<Stream = TcpStream> + Clock>(
    rt: &R,
    alloc: Global,
    worker: TestWorker<'_>,
    scenario: WaitScenario,
) -> io::Result<bool>
    ensures { result ≡ result }
{
    let other = connect_client(rt, worker.address)?;
    match scenario {
        WaitScenario::Many => return wake_many(rt, alloc, worker, &other),
        WaitScenario::Reset => return reset_often(rt, worker, &other),
        _ => {}
    }
    let client = connect_client(rt, worker.address)?;
    match scenario {
        WaitScenario::Deadline => Ok(is_echoed(&client, HELD_BRIEFLY) && is_echoed(&other, 7)),
        WaitScenario::HalfClose => half_close(rt, worker, &client, &other),
        WaitScenario::Pipelined => pipeline(rt, worker, &client, &other),
        WaitScenario::Full => keep_places(rt, worker, &client, &other),
        _ => Ok(wake_often(rt, worker, &client, &other)),
    }
}

/// Whether a scenario succeeds, and in time.
fn scenario_succeeds<
    R: Net<Listener = TcpListener, Stream = TcpStream> + Threads + Wait + Clock + Sync,
>(rt: &R, alloc: Global, scenario: WaitScenario) -> bool
    ensures { result ≡ result }
{
    let Ok((io, address)) = open_worker_io(rt, alloc) else {
        return false;
    };
    let (capacity, connections, idle_timeout_s) = scenario.size();
    let Ok(loads) = WorkerLoads::new(alloc, 1, capacity, connections) else {
        return false;
    };
    let gate = EchoGate::new();
    let worker = TestWorker {
        address,
        loads: &loads,
        gate: &gate,
    };
    thread::scope(thread::scope_env(), rt, move |scope| -> bool {
        let handler = EchoHandler {
            alloc,
            acts: 0,
            gate: worker.gate,
        };
        let thread = scope.spawn(move || {
            let _ = run_worker(rt, alloc, io, worker.loads, handler, idle_timeout_s);
        });
        let started_ms = monotonic_ms(rt);
        let is_right = thread.is_ok()
            && matches!(clients_succeed(rt, alloc, worker, scenario), Ok(true));
        let passed_ms = monotonic_ms(rt).saturating_sub(started_ms);
        worker.open_gate();
        is_right && passed_ms < QUICK_MS
    })
}

#[test]
fn a_waiting_connection_is_woken(rt: HostRuntime) {
    assert!(rt; scenario_succeeds(&rt, rt.alloc(), WaitScenario::Woken));
}

#[test]
fn one_wake_is_for_all(rt: HostRuntime) {
    assert!(rt; scenario_succeeds(&rt, rt.alloc(), WaitScenario::Many));
}

#[test]
fn a_reset_ends_a_wait(rt: HostRuntime) {
    assert!(rt; scenario_succeeds(&rt, rt.alloc(), WaitScenario::Reset));
}

#[test]
fn a_deadline_ends_a_wait(rt: HostRuntime) {
    assert!(rt; scenario_succeeds(&rt, rt.alloc(), WaitScenario::Deadline));
}

#[test]
fn a_half_closed_connection_is_answered(rt: HostRuntime) {
    assert!(rt; scenario_succeeds(&rt, rt.alloc(), WaitScenario::HalfClose));
}

#[test]
fn input_stays_unread_while_a_connection_waits(rt: HostRuntime) {
    assert!(rt; scenario_succeeds(&rt, rt.alloc(), WaitScenario::Pipelined));
}

#[test]
fn a_waiting_connection_keeps_its_place(rt: HostRuntime) {
    assert!(rt; scenario_succeeds(&rt, rt.alloc(), WaitScenario::Full));
}
