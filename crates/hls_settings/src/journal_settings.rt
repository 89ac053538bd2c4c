//! The settings of a journal.
ghost use Rattle.std.specs.Prelude.{◌≡◌, map};
ghost use Rattle.hls_settings.specs.JournalSettings.{journal_settings_of, lost_of, sync_of, unneeded_option};
ghost use Rattle.hls_settings.specs.Settings.{text_of};

use crate::file_arguments::{find_journal_argument, find_option_value};
use crate::number::number_or_default;
use crate::wrong_argument::is_given;
use std::convert::AsStr;
use std::fmt::{self, Display, Formatter, Write};

/// When what was written to a journal is synced to its disk.
#[derive(Clone, Copy, Drop)]
pub enum SyncSetting {
    /// Never: the kernel decides.
    Never,
    /// Whenever this number of milliseconds has passed, 1 to 60000.
    Every(u64),
    /// Before anything is reported as durable.
    Each,
}

/// The settings of a journal.
#[derive(Clone, Copy, Drop)]
pub struct JournalSettings {
    pub sync: SyncSetting,
    /// Whether encoders are refused once the journal is lost; else the channel continues without it.
    pub refuses_if_lost: bool,
    /// Whether the channel begins with an empty recording after what the journal has.
    pub begins_anew: bool,
}

/// An option that needs a journal.
#[derive(Clone, Copy, Drop)]
pub enum JournalOption {
    /// `--sync`.
    Sync,
    /// `--journal-lost`.
    Lost,
    /// `--anew`.
    Anew,
}

/// The first fault of the options of a journal, in the order of the variants.
#[derive(Clone, Copy, Drop)]
pub enum JournalSettingsFault {
    /// An option is given without `--journal`.
    NoJournal(JournalOption),
    /// `--sync` isn't `never`, `each` or 1 to 60000 milliseconds.
    Sync,
    /// `--journal-lost` isn't `go-on` or `refuse`.
    Lost,
}

impl Display for JournalSettingsFault {
    fn fmt<W: Write>(&self, f: &mut Formatter<W>) -> fmt::Result {
        f.write_str(match self {
            JournalSettingsFault::NoJournal(JournalOption::Sync) => "--sync needs --journal",
            JournalSettingsFault::NoJournal(JournalOption::Lost) => {
                "--journal-lost needs --journal"
            }
            JournalSettingsFault::NoJournal(JournalOption::Anew) => "--anew needs --journal",
            JournalSettingsFault::Sync => "--sync takes never, each, or 1 to 60000 milliseconds",
            JournalSettingsFault::Lost => "--journal-lost takes go-on or refuse",
        })
    }
}

fn read_sync(text: Option<&str>) -> Option<SyncSetting>
    ensures { result ≡ sync_of (text_of text.entry) }
{
    match text {
        Some("never") => Some(SyncSetting::Never),
        Some("each") => Some(SyncSetting::Each),
        _ => Some(SyncSetting::Every(number_or_default(1, 60_000, 1000, text)?)),
    }
}

/// Whether encoders are refused once the journal is lost; `None` if the text is something else.
fn read_lost(text: Option<&str>) -> Option<bool>
    ensures { result ≡ lost_of (text_of text.entry) }
{
    match text {
        None => Some(false),
        Some("go-on") => Some(false),
        Some("refuse") => Some(true),
        Some(_) => None,
    }
}

/// Returns the first option that needs a journal, by which are given.
fn find_unneeded(has_sync: bool, has_lost: bool, begins_anew: bool) -> Option<JournalOption>
    ensures { result ≡ unneeded_option has_sync has_lost begins_anew }
{
    if has_sync {
        Some(JournalOption::Sync)
    } else if has_lost {
        Some(JournalOption::Lost)
    } else if begins_anew {
        Some(JournalOption::Anew)
    } else {
        None
    }
}

/// Returns the settings of a journal: without the options it is synced every second, the channel continues without it if it is lost,
/// and begins with what it has. The arguments must be valid.
pub fn read_journal_settings<S: AsStr>(
    arguments: &[S],
) -> Result<JournalSettings, JournalSettingsFault>
    ensures { result ≡ journal_settings_of (map S.text arguments.now) }
{
    let sync = find_option_value(arguments, "--sync");
    let lost = find_option_value(arguments, "--journal-lost");
    let begins_anew = is_given(arguments, "--anew");
    if find_journal_argument(arguments).is_none() {
        if let Some(option) = find_unneeded(sync.is_some(), lost.is_some(), begins_anew) {
            return Err(JournalSettingsFault::NoJournal(option));
        }
    }
    let Some(sync) = read_sync(sync) else {
        return Err(JournalSettingsFault::Sync);
    };
    let Some(refuses_if_lost) = read_lost(lost) else {
        return Err(JournalSettingsFault::Lost);
    };
    Ok(JournalSettings {
        sync,
        refuses_if_lost,
        begins_anew,
    })
}
