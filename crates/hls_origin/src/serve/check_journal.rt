//! `journal --check`: whether `serve` with the same arguments would continue the channel of its journal.
ghost use Rattle.std.specs.Prelude.{map};
ghost use Rattle.hls_origin.specs.ServeRun.{EndsServe};

use crate::journal::FolderFault;
use crate::serve::run::{ServeArguments, ServeEnd, read_serve_arguments};
use hls_journal_store::{StoreCheck, check_store};
use std::alloc::Global;
use std::convert::AsStr;
use std::fs::File;
use std::rt::Files;
use std::thread::Threads;

/// Reads the arguments of `serve`, and prints whether a start with them would continue the channel of the journal, and how many seconds of it
/// would be kept or lost. Changes nothing. A channel without a journal, or with `--anew`, keeps nothing.
pub fn run_check_journal<S: AsStr, R: Files<File = File> + Threads + Sync>(
    rt: &R,
    host: &HostRuntime,
    alloc: Global,
    arguments: &[S],
) -> ServeEnd
    ensures { EndsServe (map S.text arguments.now) result }
{
    let ServeArguments {
        settings,
        journal,
        folder,
    } = match read_serve_arguments(host, alloc, arguments) {
        Ok(given) => given,
        Err(end) => return end,
    };
    let continues = match folder {
        Some(folder) if !journal.begins_anew => {
            let Ok(config) = settings.config.share() else {
                return ServeEnd::Memory;
            };
            print_check(host, &check_store(rt, alloc, folder, config))
        }
        _ => print_kept(host, 0),
    };
    if continues {
        ServeEnd::Done
    } else {
        ServeEnd::JournalFailed
    }
}

/// Prints what was found of a journal. Returns whether a start would continue it.
fn print_check(host: &HostRuntime, check: &StoreCheck) -> bool {
    let seconds = check.kept_us / 1_000_000;
    match &check.outcome {
        Ok(()) => print_kept(host, seconds),
        Err(fault) => {
            let line = FolderFault(fault);
            let _ = println!(host; "{line}; {seconds} s would be lost");
            false
        }
    }
}

/// Prints how much a start would continue with. Returns whether that was written.
fn print_kept(host: &HostRuntime, seconds: u64) -> bool {
    println!(host; "continues {seconds} s").is_ok()
}
