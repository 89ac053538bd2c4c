//! What a journal has yet to write of a channel: the records of log entries, and the media that come with them.

ghost use Rattle.std.specs.Prelude.{◌≡◌, ◌<◌, ◌≤◌, [], ◌∷◌, ◌++◌, length, min, get_or, slice_set, suc, ◌+◌, IfOk, OnOk};
ghost use Rattle.std.specs.Option.{option_copied, option_map};
ghost use Rattle.hls_journal_store.specs.Batches.{rendition_in, event_in, offset_in, writes_of, number_in, counted, IsLoggedRecord, HasOneMore, IsBatch};
ghost use Rattle.hls_journal_store.specs.Writes.{written_list};

use crate::fault::BatchFault;
use bytes::Bytes;
use hls_core::snapshot::Snapshot;
use hls_core_laws::event::{Entry, Event, LoggedEvent};
use hls_journal::{JournalFault, make_event_body};
use hls_record::Recording;
use std::alloc::{AllocError, Global};

/// How many renditions a record can name.
pub const RENDITIONS: usize = 256;

/// How far a journal has come.
#[derive(Drop)]
pub struct Position {
    /// The number of log entries that have records.
    pub version: u64,
    /// The number of units that have records, of each of 256 renditions.
    pub counts: Vec<u64>,
}

/// Bytes that are to be stored at an offset of a rendition's resource: its init section or a unit.
#[derive(Drop)]
pub struct MediaWrite {
    pub rendition: usize,
    pub at: u64,
    pub bytes: Bytes,
}

/// The records of consecutive log entries, and the media that come with them.
#[derive(Drop)]
pub struct Batch {
    pub bodies: Vec<Bytes>,
    pub writes: Vec<MediaWrite>,
    /// The journal's position once they are written.
    pub position: Position,
}

/// The record of one log entry.
#[derive(Drop)]
struct EntryRecord {
    body: Bytes,
    write: Option<MediaWrite>,
}

/// Makes the records of at most `most` log entries of a channel, from a journal's position on.
///
/// `TrimmedEarly`: the channel doesn't have the bytes of a unit any more.
pub fn make_batch(
    alloc: Global,
    snapshot: &Snapshot,
    from: &Position,
    most: u64,
) -> Result<Batch, BatchFault>
    ensures batch { IfOk result (IsBatch snapshot.now from.now) }
    ensures end { IfOk result (λ batch. from.now.version ≤ length snapshot.now.log → batch.position.version ≡ min (length snapshot.now.log) (from.now.version + most)) }
{
    let end = snapshot.version().min(from.version.saturating_add(most));
    let mut batch = begin_batch(alloc, from)?;
    'entries: while batch.position.version < end {
        add_entry(alloc, snapshot, &mut batch)?;
    }
    Ok(batch)
}

/// Returns an empty batch at a position.
fn begin_batch(alloc: Global, from: &Position) -> Result<Batch, AllocError>
    ensures { IfOk result (λ batch. (batch.bodies.items ≡ []) × (batch.writes.items ≡ []) × (batch.position.version ≡ from.now.version) × (batch.position.counts.items ≡ from.now.counts.items)) }
{
    Ok(Batch {
        bodies: Vec::new(alloc),
        writes: Vec::new(alloc),
        position: copy_position(alloc, from)?,
    })
}

/// Returns a copy of a position.
pub(crate) fn copy_position(alloc: Global, from: &Position) -> Result<Position, AllocError>
    ensures { IfOk result (λ position. (position.version ≡ from.now.version) × (position.counts.items ≡ from.now.counts.items)) }
{
    let mut counts = Vec::new(alloc);
    counts.extend_from_slice(&from.counts)?;
    Ok(Position {
        version: from.version,
        counts,
    })
}

/// Adds the next log entry to a batch.
fn add_entry(alloc: Global, snapshot: &Snapshot, batch: &mut Batch) -> Result<(), BatchFault>
    requires { batch.old.position.version < length snapshot.now.log }
    ensures { OnOk result (HasOneMore snapshot.now batch.old batch.new) }
{
    let Some(entry) = snapshot.log().get(batch.position.version) else {
        unreachable!()
    };
    let rendition = find_rendition(&entry.event);
    let number = batch.position.counts.get(rendition).copied().unwrap_or(0);
    let record = log_entry(alloc, snapshot.recording(rendition), number, entry)?;
    push_record(batch, record)?;
    count_entry(&mut batch.position.counts, &entry.event, number)?;
    batch.position.version += 1;
    Ok(())
}

/// Appends a record and its media.
fn push_record(batch: &mut Batch, record: EntryRecord) -> Result<(), AllocError>
    ensures bodies { OnOk result (batch.new.bodies.items ≡ batch.old.bodies.items ++ record.body ∷ []) }
    ensures writes { OnOk result (batch.new.writes.items ≡ batch.old.writes.items ++ written_list record.write) }
    ensures position { batch.new.position ≡ batch.old.position }
{
    batch.bodies.push(record.body)?;
    if let Some(write) = record.write {
        batch.writes.push(write)?;
    }
    Ok(())
}

/// Returns the rendition of a logged event; 0 if it has none.
pub(crate) fn find_rendition(event: &LoggedEvent) -> usize
    ensures { result ≡ rendition_in event.now }
{
    match event {
        LoggedEvent::Begun { rendition, .. } => *rendition,
        LoggedEvent::Accepted { rendition, .. } => *rendition,
        LoggedEvent::Finished { rendition } => *rendition,
        LoggedEvent::Slid { .. } => 0,
        LoggedEvent::Trimmed { rendition, .. } => *rendition,
    }
}

/// Counts the unit of a logged event, if it has one; this is its number.
pub(crate) fn count_entry(
    counts: &mut [u64],
    event: &LoggedEvent,
    number: u64,
) -> Result<(), BatchFault>
    requires { number ≡ number_in counts.old event.now }
    ensures { OnOk result (counts.new ≡ counted counts.old event.now) }
{
    let LoggedEvent::Accepted { rendition, .. } = event else {
        return Ok(());
    };
    let Some(next) = number.checked_add(1) else {
        return Err(BatchFault::NoRecord);
    };
    if *rendition < counts.len() {
        counts[*rendition] = next;
    }
    Ok(())
}

/// Returns the record of a log entry, given its rendition's recording; if a unit was accepted, this is its number.
fn log_entry(
    alloc: Global,
    recording: Option<&Recording>,
    number: u64,
    entry: &Entry,
) -> Result<EntryRecord, BatchFault>
    ensures { IfOk result (λ made. IsLoggedRecord (option_copied recording.entry) number entry.now made.body (written_list made.write)) }
{
    let Some(event) = find_event(recording, number, &entry.event)? else {
        return Err(BatchFault::TrimmedEarly {
            rendition: find_rendition(&entry.event),
        });
    };
    let at = find_offset(recording, number, &entry.event);
    let body = match make_event_body(alloc, entry.by, &event, at) {
        Ok(body) => body,
        Err(JournalFault::Memory) => return Err(BatchFault::Memory),
        Err(_) => return Err(BatchFault::NoRecord),
    };
    Ok(EntryRecord {
        body: into_bytes(body)?,
        write: into_write(event, at),
    })
}

/// Returns the bytes of a body, over the same memory.
pub(crate) fn into_bytes(body: Vec<u8>) -> Result<Bytes, AllocError>
    ensures { IfOk result (λ bytes. bytes ≡ body.items) }
{
    Ok(Bytes::from_vec(body)?)
}

/// Returns a logged event with its bytes, if they are kept.
fn find_event(
    recording: Option<&Recording>,
    number: u64,
    logged: &LoggedEvent,
) -> Result<Option<Event>, AllocError>
    ensures { IfOk result (λ found. found ≡ event_in (option_copied recording.entry) number logged.now) }
{
    Ok(Some(match logged {
        LoggedEvent::Begun {
            rendition,
            init,
            ..
        } => {
            let Some(recording) = recording else {
                return Ok(None);
            };
            Event::Begin {
                rendition: *rendition,
                init: init.share()?,
                bytes: recording.init_section_bytes().clone()?,
            }
        }
        LoggedEvent::Accepted { rendition, facts } => {
            let Some(recording) = recording else {
                return Ok(None);
            };
            let Some(unit) = recording.unit(number) else {
                return Ok(None);
            };
            Event::Accept {
                rendition: *rendition,
                facts: *facts,
                bytes: unit.clone()?,
            }
        }
        LoggedEvent::Finished { rendition } => Event::Finish {
            rendition: *rendition,
        },
        LoggedEvent::Slid { count } => Event::Slide { count: *count },
        LoggedEvent::Trimmed { rendition, floor } => Event::Trim {
            rendition: *rendition,
            floor: *floor,
        },
    }))
}

/// Returns the offset of an event's bytes in the rendition's resource.
fn find_offset(recording: Option<&Recording>, number: u64, logged: &LoggedEvent) -> u64
    ensures { result ≡ offset_in (option_copied recording.entry) number logged.now }
{
    match (logged, recording) {
        (LoggedEvent::Accepted { .. }, Some(recording)) => recording.offset(number),
        _ => 0,
    }
}

/// Returns the media of an event whose bytes are at this offset.
fn into_write(event: Event, at: u64) -> Option<MediaWrite>
    ensures { written_list result ≡ writes_of at event }
{
    match event {
        Event::Begin {
            rendition,
            bytes,
            ..
        } => Some(MediaWrite {
            rendition,
            at,
            bytes,
        }),
        Event::Accept {
            rendition,
            bytes,
            ..
        } => Some(MediaWrite {
            rendition,
            at,
            bytes,
        }),
        _ => None,
    }
}

/// Returns the position of a journal that has the records of a state of a channel.
pub(crate) fn find_position(alloc: Global, snapshot: &Snapshot) -> Result<Position, AllocError> {
    let mut counts = vec![in alloc; 0u64; RENDITIONS]?;
    for (rendition, count) in counts.iter_mut().enumerate() {
        if let Some(recording) = snapshot.recording(rendition) {
            *count = recording.count();
        }
    }
    Ok(Position {
        version: snapshot.version(),
        counts,
    })
}
