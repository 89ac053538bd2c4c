//! Laws of journals. Each function has no body: its contract is the law.

ghost use Rattle.hls_journal_laws.specs.Durable.{DurableEventsAreRestored};
ghost use Rattle.hls_journal_laws.specs.Heads.{HeadsDetermineFacts, UnitsHaveHeads};
ghost use Rattle.hls_journal_laws.specs.Laws.{RestoredIsReplayed, RestoredStatesAreStates, TrimmedFloorsAreReached};
ghost use Rattle.hls_journal_laws.specs.Players.{ListsContinue, PathListsContinue, PathsNameTheSame, RestoredStatesFollow};
ghost use Rattle.hls_journal_laws.specs.Replays.{PrefixesFollow};
ghost use Rattle.hls_journal_laws.specs.Substitutes.{SubstitutesReplayAlike};

use hls_core_laws::laws::runs_follow;
use hls_journal_log::laws::survivors_are_read;
use hls_playlists_laws::path_laws::{based_lists_follow, path_lists_follow, paths_never_change};
use sqlite_disk::Disk;

/// Units with the same head and the same length have the same facts.
pub fn heads_determine_facts()
    ensures { HeadsDetermineFacts }
{}

/// Every unit has a head; followed by zeros up to the unit's length, it has the unit's facts.
pub fn units_have_heads()
    ensures { UnitsHaveHeads }
{}

/// The replay of a prefix of the events is followed by that of a longer prefix.
pub fn prefixes_follow()
    ensures { PrefixesFollow }
{}

/// If other bytes replace those of units that are trimmed in the end, the replay comes to the same state.
pub fn substitutes_replay_alike()
    ensures { SubstitutesReplayAlike }
{}

/// Whatever the records and the media are, a restored state is a state of the given configuration.
pub fn restored_states_are_states()
    ensures { RestoredStatesAreStates }
{}

/// The records of the events that came restore the state that these events lead to.
pub fn restored_is_replayed()
    ensures { RestoredIsReplayed }
{}

/// No record of what came trims a rendition above its floor in the end, so the highest floors that the records name may be used.
pub fn trimmed_floors_are_reached()
    ensures { TrimmedFloorsAreReached }
{}

/// The channel that the records of some events restore is the state that these events lead to, and follows each state before.
pub fn restored_states_follow()
    ensures { RestoredStatesFollow }
{
    runs_follow();
}

/// A live list that was sent before a restart is followed by that of the restored channel.
pub fn lists_continue()
    ensures { ListsContinue }
{
    restored_states_follow();
    based_lists_follow();
}

/// So is one by paths.
pub fn path_lists_continue()
    ensures { PathListsContinue }
{
    restored_states_follow();
    path_lists_follow();
}

/// What a path named before a restart it names after it: the same units with the same bytes, unless the first of them is trimmed.
pub fn paths_name_the_same()
    ensures { PathsNameTheSame }
{
    restored_states_follow();
    paths_never_change();
}

/// Events whose records survive a crash are in the restored state, which is one that the channel had.
pub fn durable_events_are_restored<D: Disk>(disk: &D)
    ensures { DurableEventsAreRestored (D.may_leave disk.now) }
{
    survivors_are_read(disk);
}
