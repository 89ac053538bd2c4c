//! A worker's connections, over sockets, with an echo handler.
//!
//! `ensures { result ≡ result }` states nothing: with a contract, a helper's body isn't checked again at each call.

ghost use Rattle.std.specs.Prelude.{◌≡◌};

use crate::echo_handler::{EchoGate, EchoHandler, TOO_MUCH};
use hls_event_loop::{WorkerIo, WorkerLoads, run_worker, tune_listener};
use std::alloc::Global;
use std::io::{self, ErrorKind, Read, Write};
use std::net::{Net, Shutdown, SocketAddr, TcpListener, TcpStream};
use std::sync::Wait;
use std::thread::{self, Threads};
use std::time::{Clock, Duration};

/// Connects a client, whose reads time out after ten seconds.
pub fn connect_client<R: Net<Stream = TcpStream>>(
    rt: &R,
    address: SocketAddr,
) -> io::Result<TcpStream>
    ensures { result ≡ result }
{
    let stream = TcpStream::connect(rt, address)?;
    stream.set_read_timeout(Some(Duration::from_secs(10)))?;
    Ok(stream)
}

/// Whether a byte that is sent comes back.
pub fn is_echoed(stream: &TcpStream, byte: u8) -> bool
    ensures { result ≡ result }
{
    let mut stream = stream;
    let mut back = [0; 4];
    match (stream.write(&[byte]), stream.read(&mut back)) {
        (Ok(_), Ok(count)) => count == 1 && back[0] == byte,
        _ => false,
    }
}

/// Whether the byte after which there is no memory comes back, and then the report of that. Both may arrive at once.
fn is_out_of_memory_reported(stream: &TcpStream) -> bool
    ensures { result ≡ result }
{
    let mut stream = stream;
    let mut back = [0; 5];
    match (stream.write(&[TOO_MUCH]), stream.read_exact(&mut back)) {
        (Ok(_), Ok(())) => back == [TOO_MUCH, b'n', b'o', b'n', b'e'],
        _ => false,
    }
}

/// Whether the connection ends without a further byte.
pub fn is_disconnected(stream: &TcpStream) -> bool
    ensures { result ≡ result }
{
    let mut stream = stream;
    let mut back = [0; 4];
    match stream.read(&mut back) {
        Ok(count) => count == 0,
        Err(error) => error.kind() == ErrorKind::ConnectionReset,
    }
}

/// What the clients of a worker do.
#[derive(Clone, Copy, PartialEq, Eq)]
enum LoopScenario {
    /// Three are connected at once, and send a byte in turns.
    Concurrent,
    /// One more connects than there are places.
    Full,
    /// One is silent for longer than the idle timeout.
    IdleTimeout,
    /// One closes its sending side.
    HalfClose,
    /// One sends the byte after which memory runs out.
    OutOfMemory,
}

impl LoopScenario {
    /// How many places the worker has, and how many connections it accepts.
    fn size(self) -> (u64, u64) {
        match self {
            LoopScenario::Concurrent => (8, 3),
            LoopScenario::Full => (2, 3),
            _ => (8, 1),
        }
    }
}

/// Whether three clients, the first of them connected, each get back what they send in turns.
fn take_turns<R: Net<Stream = TcpStream>>(
    rt: &R,
    address: SocketAddr,
    first: &TcpStream,
) -> io::Result<bool> {
    let second = connect_client(rt, address)?;
    let third = connect_client(rt, address)?;
    for byte in 2..9 {
        let right = is_echoed(first, byte)
            && is_echoed(&second, byte | 16)
            && is_echoed(&third, byte | 32);
        if !right {
            return Ok(false);
        }
    }
    Ok(true)
}

/// Whether the first of three clients is evicted, which is idle for the longest time.
fn evict_longest_idle<R: Net<Stream = TcpStream>>(
    rt: &R,
    address: SocketAddr,
    first: &TcpStream,
) -> io::Result<bool> {
    let second = connect_client(rt, address)?;
    let before = is_echoed(&second, 2);
    let third = connect_client(rt, address)?;
    let after = is_echoed(&third, 3);
    Ok(before && after && is_disconnected(first) && is_echoed(&second, 4))
}

/// Whether the clients of a scenario get what they expect. All of them close at the end.
fn clients_succeed<R: Net<Stream = TcpStream>>(
    rt: &R,
    address: SocketAddr,
    scenario: LoopScenario,
) -> io::Result<bool>
    ensures { result ≡ result }
{
    let first = connect_client(rt, address)?;
    if !is_echoed(&first, 1) {
        return Ok(false);
    }
    match scenario {
        LoopScenario::Concurrent => take_turns(rt, address, &first),
        LoopScenario::Full => evict_longest_idle(rt, address, &first),
        LoopScenario::IdleTimeout => Ok(is_disconnected(&first)),
        LoopScenario::OutOfMemory => Ok(
            is_out_of_memory_reported(&first) && is_disconnected(&first),
        ),
        LoopScenario::HalfClose => {
            first.shutdown(Shutdown::Write)?;
            Ok(is_disconnected(&first))
        }
    }
}

/// The resources of a worker at a free local port, and its address.
pub fn open_worker_io<R: Net<Listener = TcpListener, Stream = TcpStream>>(
    rt: &R,
    alloc: Global,
) -> io::Result<(WorkerIo, SocketAddr)>
    ensures { result ≡ result }
{
    let listener = TcpListener::bind(rt, "127.0.0.1:0")?;
    tune_listener(&listener);
    let address = listener.local_addr()?;
    Ok((WorkerIo::listen_on(rt, alloc, &listener)?, address))
}

/// Whether a scenario succeeds at a worker with an idle timeout of one second.
fn scenario_succeeds<
    R: Net<Listener = TcpListener, Stream = TcpStream> + Threads + Wait + Clock + Sync,
>(rt: &R, alloc: Global, scenario: LoopScenario) -> bool
    ensures { result ≡ result }
{
    let Ok((io, address)) = open_worker_io(rt, alloc) else {
        return false;
    };
    let (capacity, connections) = scenario.size();
    let Ok(worker_loads) = WorkerLoads::new(alloc, 1, capacity, connections) else {
        return false;
    };
    let gate = EchoGate::new();
    let (worker_loads, gate) = (&worker_loads, &gate);
    thread::scope(thread::scope_env(), rt, move |scope| -> bool {
        let echo_handler = EchoHandler {
            alloc,
            acts: 0,
            gate,
        };
        let worker = scope.spawn(move || {
            let _ = run_worker(rt, alloc, io, worker_loads, echo_handler, 1);
        });
        worker.is_ok() && matches!(clients_succeed(rt, address, scenario), Ok(true))
    })
}

#[test]
fn connections_are_independent(rt: HostRuntime) {
    assert!(rt; scenario_succeeds(&rt, rt.alloc(), LoopScenario::Concurrent));
}

#[test]
fn the_longest_idle_is_evicted(rt: HostRuntime) {
    assert!(rt; scenario_succeeds(&rt, rt.alloc(), LoopScenario::Full));
}

#[test]
fn a_silent_connection_times_out(rt: HostRuntime) {
    assert!(rt; scenario_succeeds(&rt, rt.alloc(), LoopScenario::IdleTimeout));
}

#[test]
fn a_half_closed_connection_is_closed(rt: HostRuntime) {
    assert!(rt; scenario_succeeds(&rt, rt.alloc(), LoopScenario::HalfClose));
}

#[test]
fn allocation_failure_is_reported(rt: HostRuntime) {
    assert!(rt; scenario_succeeds(&rt, rt.alloc(), LoopScenario::OutOfMemory));
}
