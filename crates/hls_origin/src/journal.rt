//! The command `journal`: what a journal's folder holds, and closing one after its server has ended.

use hls_journal::{ConfigField, JournalFault};
use hls_journal_store::{OpenFault, StoreReport, close_store, inspect_store};
use hls_settings::PrintableArgument;
use std::alloc::Global;
use std::fmt::{self, Display, Formatter, Write};
use std::fs::File;
use std::io::{Eprint, Print};
use std::rt::Files;

/// Returns the name of a field of a configuration.
fn field_name(field: ConfigField) -> &'static str {
    match field {
        ConfigField::Target => "target",
        ConfigField::Preferred => "preferred",
        ConfigField::Epoch => "epoch",
        ConfigField::Renditions => "bytes of renditions",
    }
}

/// Why a folder restores no channel, as a line.
#[derive(Drop)]
pub struct FolderFault<'a>(pub &'a OpenFault);

impl<'a> FolderFault<'a> {
    /// Returns the fault's name, or the part of the folder on which a call failed.
    pub fn name(&self) -> &'static str {
        match self.0 {
            OpenFault::Memory => "Memory",
            OpenFault::Busy => "Busy",
            OpenFault::Marked => "Marked",
            OpenFault::Damaged { .. } => "JournalDamaged",
            OpenFault::Channel(fault) => ChannelFault(fault).name(),
            OpenFault::Stale { .. } => "JournalStale",
            OpenFault::Disk { part, .. } => part.text(),
        }
    }
}

/// The fault of a channel's records, as a line.
#[derive(Drop)]
struct ChannelFault<'a>(&'a JournalFault);

impl<'a> ChannelFault<'a> {
    fn name(&self) -> &'static str {
        match self.0 {
            JournalFault::Memory => "Memory",
            JournalFault::NoChannel => "NoChannel",
            JournalFault::UnknownVersion { .. } => "UnknownVersion",
            JournalFault::JournalOther { .. } => "JournalOther",
            JournalFault::WrongRecord { .. } => "WrongRecord",
            JournalFault::MissingUnit { .. } => "MissingUnit",
        }
    }
}

fn write_channel_details<W: Write>(f: &mut Formatter<W>, fault: &JournalFault) -> fmt::Result {
    match fault {
        JournalFault::Memory => Ok(()),
        JournalFault::NoChannel => f.write_str(": it has no channel"),
        JournalFault::UnknownVersion { version } => write!(f, ": its format has version {version}"),
        JournalFault::JournalOther {
            field,
            journal,
            given,
        } if journal == given => write!(f, ": other {}", field_name(*field)),
        JournalFault::JournalOther {
            field,
            journal,
            given,
        } => write!(f, ": {} {journal}, not {given}", field_name(*field)),
        JournalFault::WrongRecord { record } => write!(f, " at record {record}"),
        JournalFault::MissingUnit { record } => write!(f, " at record {record}"),
    }
}

impl<'a> Display for FolderFault<'a> {
    fn fmt<W: Write>(&self, f: &mut Formatter<W>) -> fmt::Result {
        f.write_str(self.name())?;
        match self.0 {
            OpenFault::Memory => Ok(()),
            OpenFault::Busy => f.write_str(": another process has it"),
            OpenFault::Marked => f.write_str(
                ": players have seen more than it has; serve --anew begins an empty channel",
            ),
            OpenFault::Damaged { at } => write!(f, " at byte {at}"),
            OpenFault::Channel(fault) => write_channel_details(f, fault),
            OpenFault::Stale { next, served } => write!(
                f,
                ": its next segment is {next}, and players have seen those below {served}"
            ),
            OpenFault::Disk { error, .. } => write!(f, ": {error}"),
        }
    }
}

/// What a folder holds, in lines.
#[derive(Drop)]
struct ReportLines(StoreReport);

fn yes_or_no(holds: bool) -> &'static str {
    if holds { "yes" } else { "no" }
}

impl Display for ReportLines {
    fn fmt<W: Write>(&self, f: &mut Formatter<W>) -> fmt::Result {
        let report = self.0;
        write!(
            f,
            "records {}\nlog-bytes {}\n",
            report.records, report.log_bytes
        )?;
        write!(f, "dropped {}\nunits {}\n", report.dropped, report.units)?;
        write!(
            f,
            "missing {}\nmedia-bytes {}\n",
            report.missing, report.media_bytes
        )?;
        let (closed, marked) = (yes_or_no(report.was_closed), yes_or_no(report.is_marked));
        write!(f, "closed {closed}\nmarked {marked}\n")?;
        let (same_boot, new_run) = (yes_or_no(report.same_boot), yes_or_no(report.may_lack));
        let restorable = yes_or_no(is_restorable(report));
        write!(
            f,
            "same-boot {same_boot}\nnew-run {new_run}\nrestorable {restorable}\n"
        )
    }
}

/// Whether a start restores the channel, as far as the folder shows that without the arguments. After a power loss a start drops the
/// records from the first missing unit on.
fn is_restorable(report: StoreReport) -> bool {
    !report.is_marked && report.records > 0 && (report.missing == 0 || report.may_lack)
}

fn print_fault<R: Eprint>(rt: &R, folder: &str, fault: &OpenFault) {
    let (name, line) = (PrintableArgument(folder), FolderFault(fault));
    let _ = eprintln!(rt; "journal: {name}: {line}");
}

/// Prints what a folder holds. Returns whether a start restores it. Changes nothing.
pub fn run_report<R: Print + Eprint + Files<File = File>>(
    rt: &R,
    alloc: Global,
    folder: &str,
) -> bool {
    match inspect_store(rt, alloc, folder) {
        Ok(report) => {
            let lines = ReportLines(report);
            print!(rt; "{lines}").is_ok() && is_restorable(report)
        }
        Err(fault) => {
            print_fault(rt, folder, &fault);
            false
        }
    }
}

/// Closes the journal in a folder, whose server has ended: syncs it, and notes that nothing is missing. Returns whether it could.
pub fn run_close<R: Eprint + Files<File = File>>(rt: &R, alloc: Global, folder: &str) -> bool {
    match close_store(rt, alloc, folder) {
        Ok(()) => true,
        Err(fault) => {
            print_fault(rt, folder, &fault);
            false
        }
    }
}
