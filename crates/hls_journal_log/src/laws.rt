//! Laws of logs. Each function has no body: its contract is the law.

ghost use Rattle.hls_journal_log.specs.Crashes.{SurvivorsAreRead};
ghost use Rattle.hls_journal_log.specs.Laws.{CompleteRecordsAreRead, PrefixesAreNotCorrupt, PrefixesAreRead, SyncPointsAreFound, SyncedBytesAreRead};

use sqlite_disk::Disk;

/// Complete records are read first, in order, whatever follows them.
pub fn complete_records_are_read()
    ensures { CompleteRecordsAreRead }
{}

/// Of the first bytes of a log the records that are complete there are read, and no others.
pub fn prefixes_are_read()
    ensures { PrefixesAreRead }
{}

/// What follows them is nothing, or torn; it isn't corrupt.
pub fn prefixes_are_not_corrupt()
    ensures { PrefixesAreNotCorrupt }
{}

/// A written sync point is recognized at any place.
pub fn sync_points_are_found()
    ensures { SyncPointsAreFound }
{}

/// A log that isn't damaged is read at least up to the place that any sync point in it names.
pub fn synced_bytes_are_read()
    ensures { SyncedBytesAreRead }
{}

/// Records that survive a crash are read after it.
pub fn survivors_are_read<D: Disk>(_disk: &D)
    ensures { SurvivorsAreRead (D.may_leave _disk.now) }
{}
