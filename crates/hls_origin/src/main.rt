//! `hls_origin`: a live HLS origin over fragmented MP4.
//!
//! `hls_origin cut [--each] [--preferred N] [--charge N] [--certificate] [--target N] [--uri TEXT] [--epoch TEXT]` reads a recorded
//! stream of one rendition from standard input and writes its playlist (RFC 8216), or its least plan's certificate, to standard
//! output. Without arguments the program runs `cut --each`. The exit status is 0 for a playlist or a plan's certificate, 1 for a
//! refusal, 2 for a usage fault, and 3 if there is no plan.
//!
//! `hls_origin check` reads a certificate from standard input and writes the answer to it to standard output: `cut` and its cost,
//! `none`, or `refused` and the reason. The exit status is 0 for a valid certificate, 1 for a refused one or an error, and 2 for a
//! usage fault.
//!
//! `hls_origin lint` reads a media playlist from standard input and writes a one-line summary to standard output, or `refused`, the
//! reason, and the line's number, if there is one. The exit status is 0 for a playlist, 1 for a refusal or an error, and 2 for a
//! usage fault.
//!
//! `hls_origin explain [NAME]` writes what a refusal's name means and what to change, or all names, one per line. The exit status is
//! 1 for an unknown name or an error, and 2 for a usage fault.
//!
//! `hls_origin size [OPTIONS] ADDRESS SPEC..` writes how much memory `serve` with these arguments needs, part by part, and the limits for its
//! service. The exit status is 1 for an error, and 2 for a usage fault.
//!
//! `hls_origin serve [OPTIONS] ADDRESS SPEC..` serves a channel over HTTP until a signal ends it. The exit status is 2 for a usage
//! fault, and 1 if it can't listen on the address or is out of memory.
//!
//! `hls_origin journal FOLDER` reports what the folder of a journal holds, and changes nothing; `hls_origin journal --close FOLDER` syncs
//! and closes it; `hls_origin journal --check [OPTIONS] ADDRESS SPEC..` writes whether `serve` with these arguments would continue its journal,
//! and changes nothing. The exit status is 1 if a start doesn't restore it, or if it can't be closed, and 2 for a usage fault.
//!
//! `hls_origin help`, `--help` and `-h`, alone or after a command, print the usage, and `--version` the version.
#![tactic(auto)]

ghost use Rattle.std.specs.Prelude.{◌≡◌};
ghost use Rattle.std.specs.Process.{exit_status};
ghost use Rattle.hls_origin.specs.Status.{check_status, cut_status, explain_status, lint_status, serve_status, usage_status};

mod journal;
mod serve;
mod version;

use crate::journal::{run_close, run_report};
use crate::serve::check_journal::run_check_journal;
use crate::serve::run::{ServeEnd, run_serve};
use crate::version::{TOOLCHAIN, VERSION};
use hls_commands::{
    CheckEnd, CutEnd, CutFault, ExplainEnd, LintEnd, ListingFault, MEANINGS, run_check, run_cut,
    run_explain, run_lint,
};
use hls_housekeeper::{settings_needs, write_needs};
use hls_io::{Counted, write_whole};
use hls_settings::{
    PrintableArgument, Settings, SettingsFault, SettingsMessage, find_journal_argument,
    read_settings,
};
use std::fs::File;
use std::io::{Eprint, ErrorKind};
use std::net::{Net, TcpListener, TcpStream};
use std::process::ExitCode;
use std::rt::{Env, Files};
use std::sync::Wait;
use std::thread::Threads;
use std::time::Clock;
use std::{env, io};

const USAGE: &str =
    "usage: hls_origin [cut [--each] [--target N] [--uri TEXT] [--epoch TEXT]] < STREAM > PLAYLIST
       hls_origin cut --preferred N [--charge N] [--certificate] [--target N] [--uri TEXT] [--epoch TEXT] < STREAM > OUTPUT
       hls_origin check < CERTIFICATE
       hls_origin lint < PLAYLIST
       hls_origin explain [NAME]
       hls_origin serve [OPTIONS] ADDRESS SPEC..
       hls_origin size [OPTIONS] ADDRESS SPEC..
       hls_origin journal [--close] FOLDER
       hls_origin journal --check [OPTIONS] ADDRESS SPEC..
       hls_origin --help | --version
";

/// The usage of `serve` alone, so that the line about the invalid argument stays among the last ones of a journal.
const SERVE_USAGE: &str = "usage: hls_origin serve [OPTIONS] ADDRESS SPEC..
";

const HELP: &str = "
cut: the playlist of a recorded stream of one rendition, fragmented MP4
  --each         one segment for each place where the stream may be cut (the default)
  --preferred N  a least plan: segments whose lengths come nearest to N microseconds in sum; N is 1 to
                 the target, at most 16 digits
  --charge N     a cost added for each segment, so that a greater N gives fewer and longer ones; N is
                 0 to 3600000000 microseconds, at most 16 digits; it needs --preferred
  --certificate  the plan's certificate in place of the playlist; it needs --preferred
  --target N     the target duration in whole seconds, 1 to 3600, at most 16 digits; 6 if not given
  --uri TEXT     the media file as the playlist names it: not empty, not beginning with #, without
                 line ends and quotation marks; media.mp4 if not given
  --epoch TEXT   the instant of time 0, 1970 to 9000, as in 2024-01-01T00:00:00Z or
                 2024-01-01T01:00:00.5+01:00: each segment has its date then
check: whether a certificate proves that its plan is least
lint: a summary of a media playlist, or its first wrong line and the reason
explain: what a refusal's name means, and what to change; without NAME, all names
serve: a live channel over HTTP; encoders PUT to /ingest/0, /ingest/1, .. and players read
       /hls/master.m3u8. ADDRESS is a.b.c.d:port, and each SPEC is name:kind:bandwidth:tolerance, where
       kind is video or audio, bandwidth is in bits a second and tolerance in microseconds
  --target N     the longest segment in whole seconds, 1 to 3600; 6 if not given
  --preferred N  the length in microseconds at which a segment ends, 1 to the target; 4000000
  --window N     what live lists hold in microseconds, three targets or more; 30000000, with --live the
                 same as --keep
  --keep N       what is kept for catch-up in microseconds, the window or more; 3600000000
  --live N       what /hls/R.m3u8 shows in microseconds, three targets to the window; the window
  --epoch TEXT   the instant of time 0 of the encoders' clock, 1970 to 9000, as in
                 2024-01-01T00:00:00Z: each segment has its date then, and catch-up takes instants
  --workers N    threads that serve connections, 1 to 63; 8
  --connections N  connections that are held at once, 16 to 1000000; 4096
  --planners N   threads for catch-up recordings, 1 to 16; 2
  --patience N   seconds that a connection may be silent or slow, 1 to 3600; 30. A response waits as long for
                 the plan of a programme, at most 30
  --log requests a line for each request on standard error
  --run TEXT     the run that the paths of media below /hls/ name, 1 to 16 letters and digits; generated if
                 not given. No other channel may ever have it
  --journal FOLDER  where the channel is kept: a start continues the one that the folder has
  --sync MODE    when the journal is synced to its disk: never, each (before each response), or a number of
                 milliseconds, 1 to 60000; 1000
  --journal-lost go-on|refuse  once the journal is lost, the channel continues without it, or encoders get
                 503; go-on
  --anew         an empty recording: its lists continue those of the folder's channel after a discontinuity,
                 with other init sections or renditions
  --base FILE    the base from which the channel continues another process's: what precedes it, and its run,
                 which becomes the channel's
  --mend         make the units of each rendition contiguous: move starts, fill gaps, drop what overlaps
  --snap N       with --mend, the most microseconds by which a start is moved, 0 to 250000; 5000
  --fill N       with --mend, the longest gap that is filled, in microseconds, 0 to 3600000000; 10000000
  --wait N       with --mend, how many seconds an encoder may be silent before its rendition is filled up to
                 the others, and these may jump without it, 1 to 3600; 5
  --job-life N   after how many seconds without a request a finished job is removed, 1 to 86400; not at all
                 if not given
  --unit-rate N  how many fragments a second a rendition may get on average over ten seconds, 0 to 1000000; 500.
                 Above it, and above four times its bandwidth over a minute, its bodies are read more slowly.
                 0: no limits
size: how much memory serve with these arguments needs, in MiB, and the limits of its service
journal: what the folder of a journal holds, and whether a start restores it; --close syncs a folder whose
       server has ended; --check, with the arguments of serve, writes how much of the channel serve would
       continue, or why it would refuse the journal, and changes nothing
Each option may be given once, after its command; --each excludes --preferred and --certificate. check and
lint take no arguments.

An example: a channel of one rendition, one encoder, one player.
  hls_origin serve 127.0.0.1:8080 v720:video:3000000:0 &
  ffmpeg -nostdin -re -f lavfi -i testsrc=s=1280x720:r=25 -c:v libx264 -pix_fmt yuv420p -g 50 \\
         -sc_threshold 0 -f mp4 -movflags +frag_keyframe+delay_moov+default_base_moof \\
         -method PUT http://127.0.0.1:8080/ingest/0 &
  sleep 15; ffplay http://127.0.0.1:8080/hls/master.m3u8
";

/// Returns the arguments, without the program's own name.
fn read_arguments(rt: &HostRuntime) -> io::Result<Vec<String>> {
    let mut arguments = Vec::new(rt.alloc());
    for argument in env::args(rt)?.skip(1) {
        arguments.push(argument)?;
    }
    Ok(arguments)
}

/// Prints that the first of the arguments is unexpected, and the usage.
fn print_usage_fault(rt: &HostRuntime, unexpected: &[String]) -> ExitCode
    ensures { exit_status result ≡ usage_status }
{
    let argument = PrintableArgument(match unexpected {
        [first, ..] => first.as_str(),
        [] => "",
    });
    let _ = eprint!(rt;
        "hls_origin: unexpected argument \"{argument}\"; hls_origin --help says more\n{USAGE}"
    );
    ExitCode::from(2)
}

/// Prints that an argument isn't UTF-8 text, and the usage.
fn print_not_utf8(rt: &HostRuntime) -> ExitCode
    ensures { exit_status result ≡ usage_status }
{
    let _ = eprint!(rt;
        "hls_origin: an argument isn't UTF-8; hls_origin --help says more\n{USAGE}"
    );
    ExitCode::from(2)
}

/// Prints the full help.
fn print_help(rt: &HostRuntime) -> ExitCode {
    let _ = print!(rt; "{USAGE}{HELP}");
    ExitCode::SUCCESS
}

/// Prints the program's version, and the toolchain that verifies it.
fn print_version(rt: &HostRuntime) -> ExitCode {
    let _ = print!(rt; "hls_origin {VERSION}\nproved with {TOOLCHAIN}\n");
    ExitCode::SUCCESS
}

/// Prints why a stream was refused.
fn print_refusal(rt: &HostRuntime, fault: CutFault) -> io::Result<()> {
    match fault {
        CutFault::Listing(ListingFault::NotAllowed { place }) => {
            eprintln!(rt; "cut: NotAllowed {place}")
        }
        _ => {
            let name = fault.name();
            eprintln!(rt; "cut: {name}")
        }
    }
}

/// Returns the exit status of `cut`, and prints its fault.
fn end_cut(rt: &HostRuntime, arguments: &[String], end: CutEnd) -> ExitCode
    ensures { exit_status result ≡ cut_status end }
{
    match end {
        CutEnd::Done => ExitCode::SUCCESS,
        CutEnd::NoCut => {
            let _ = eprintln!(rt; "cut: NoCut");
            ExitCode::from(3)
        }
        CutEnd::Refused(fault) => {
            let _ = print_refusal(rt, fault);
            ExitCode::from(1)
        }
        CutEnd::Usage(fault) => {
            let wrong = SettingsMessage { fault, arguments };
            let _ = eprint!(rt; "cut: {wrong}; hls_origin --help says more\n{USAGE}");
            ExitCode::from(2)
        }
    }
}

/// Runs `cut` with the arguments after it.
fn run_cut_command(rt: &HostRuntime, arguments: &[String]) -> ExitCode {
    let mut input = Counted::new(rt.stdin());
    let mut output = Counted::new(io::writer(rt));
    let end = run_cut(rt.alloc(), arguments, &mut input, &mut output);
    end_cut(rt, arguments, end)
}

/// Returns the exit status of `check`, and prints its fault.
fn end_check(rt: &HostRuntime, end: CheckEnd) -> ExitCode
    ensures { exit_status result ≡ check_status end }
{
    match end {
        CheckEnd::Yes => ExitCode::SUCCESS,
        CheckEnd::Refused => ExitCode::from(1),
        CheckEnd::ReadFailed => {
            let _ = eprintln!(rt; "check: ReadFailed");
            ExitCode::from(1)
        }
        CheckEnd::WriteFailed(_) => {
            let _ = eprintln!(rt; "check: WriteFailed");
            ExitCode::from(1)
        }
    }
}

/// Runs `check`, which takes no arguments.
fn run_check_command(
    rt: &HostRuntime,
    threads: &(impl Threads + Sync),
    arguments: &[String],
) -> ExitCode {
    if !arguments.is_empty() {
        return print_usage_fault(rt, arguments);
    }
    let mut input = Counted::new(rt.stdin());
    let mut output = Counted::new(io::writer(rt));
    end_check(rt, run_check(threads, rt.alloc(), &mut input, &mut output))
}

/// Returns the exit status of `lint`, and prints its fault.
fn end_lint(rt: &HostRuntime, end: LintEnd) -> ExitCode
    ensures { exit_status result ≡ lint_status end }
{
    match end {
        LintEnd::Readable => ExitCode::SUCCESS,
        LintEnd::Refused => ExitCode::from(1),
        LintEnd::ReadFailed => {
            let _ = eprintln!(rt; "lint: ReadFailed");
            ExitCode::from(1)
        }
        LintEnd::WriteFailed => {
            let _ = eprintln!(rt; "lint: WriteFailed");
            ExitCode::from(1)
        }
    }
}

/// Runs `lint`, which takes no arguments.
fn run_lint_command(rt: &HostRuntime, arguments: &[String]) -> ExitCode {
    if !arguments.is_empty() {
        return print_usage_fault(rt, arguments);
    }
    let mut input = Counted::new(rt.stdin());
    let mut output = Counted::new(io::writer(rt));
    end_lint(rt, run_lint(rt.alloc(), &mut input, &mut output))
}

/// Returns the exit status of `explain` with this argument, and prints its fault.
fn end_explain(rt: &HostRuntime, argument: &str, end: ExplainEnd) -> ExitCode
    ensures { exit_status result ≡ explain_status end }
{
    match end {
        ExplainEnd::Explained => ExitCode::SUCCESS,
        ExplainEnd::Unknown => {
            let name = PrintableArgument(argument);
            let _ = eprintln!(rt;
                "explain: no refusal is named {name}; hls_origin explain has the names"
            );
            ExitCode::from(1)
        }
        ExplainEnd::WriteFailed => {
            let _ = eprintln!(rt; "explain: WriteFailed");
            ExitCode::from(1)
        }
        ExplainEnd::Memory => {
            let _ = eprintln!(rt; "explain: Memory");
            ExitCode::from(1)
        }
    }
}

/// Runs `explain`, which takes one optional argument.
fn run_explain_command(rt: &HostRuntime, arguments: &[String]) -> ExitCode {
    let argument = match arguments {
        [] => None,
        [argument] => Some(argument.as_str()),
        [_, rest @ ..] => return print_usage_fault(rt, rest),
    };
    let name = argument.map(|argument| argument.as_bytes());
    let mut output = Counted::new(io::writer(rt));
    let end = run_explain(rt.alloc(), MEANINGS.as_bytes(), name, &mut output);
    end_explain(rt, argument.unwrap_or(""), end)
}

/// Prints that `journal` needs a folder, and the usage.
fn print_no_folder(rt: &HostRuntime) -> ExitCode
    ensures { exit_status result ≡ usage_status }
{
    let _ = eprint!(rt; "journal: no folder is given; hls_origin --help says more\n{USAGE}");
    ExitCode::from(2)
}

/// Runs `journal --check`, with the arguments of `serve`.
fn run_check_journal_command(
    rt: &HostRuntime,
    threads: &(impl Files<File = File> + Threads + Sync),
    arguments: &[String],
) -> ExitCode {
    end_serve(
        rt,
        arguments,
        run_check_journal(threads, rt, rt.alloc(), arguments),
    )
}

/// Runs `journal`, which takes a folder, or `--close` and a folder.
fn run_journal_command(rt: &HostRuntime, arguments: &[String]) -> ExitCode {
    let (closes, words) = match arguments {
        [option, rest @ ..] if option.as_str() == "--close" => (true, rest),
        _ => (false, arguments),
    };
    let folder = match words {
        [] => return print_no_folder(rt),
        [folder, ..] if folder.as_str().is_empty() => return print_no_folder(rt),
        [folder] if !folder.as_str().starts_with("-") => folder.as_str(),
        [folder, rest @ ..] if !folder.as_str().starts_with("-") => {
            return print_usage_fault(rt, rest);
        }
        _ => return print_usage_fault(rt, words),
    };
    let has_worked = if closes {
        run_close(rt, rt.alloc(), folder)
    } else {
        run_report(rt, rt.alloc(), folder)
    };
    if has_worked {
        ExitCode::SUCCESS
    } else {
        ExitCode::from(1)
    }
}

/// Returns the exit status of `serve`, and prints its fault.
fn end_serve(rt: &HostRuntime, arguments: &[String], end: ServeEnd) -> ExitCode
    ensures { exit_status result ≡ serve_status end }
{
    match end {
        ServeEnd::Done => ExitCode::SUCCESS,
        ServeEnd::Usage(fault) => {
            let wrong = SettingsMessage { fault, arguments };
            let _ = eprint!(rt; "serve: {wrong}; hls_origin --help says more\n{SERVE_USAGE}");
            ExitCode::from(2)
        }
        ServeEnd::Base(fault) => {
            let _ = eprint!(rt; "serve: {fault}; hls_origin --help says more\n{SERVE_USAGE}");
            ExitCode::from(2)
        }
        ServeEnd::Journal(fault) => {
            let _ = eprint!(rt; "serve: {fault}; hls_origin --help says more\n{SERVE_USAGE}");
            ExitCode::from(2)
        }
        ServeEnd::NoFolder => {
            let _ = eprint!(rt;
                "serve: --journal names no folder; hls_origin --help says more\n{SERVE_USAGE}"
            );
            ExitCode::from(2)
        }
        ServeEnd::OtherJournal => ExitCode::from(2),
        ServeEnd::JournalFailed => ExitCode::from(1),
        ServeEnd::BindFailed => {
            let _ = eprintln!(rt; "serve: BindFailed");
            ExitCode::from(1)
        }
        ServeEnd::Memory => {
            let _ = eprintln!(rt; "serve: Memory");
            ExitCode::from(1)
        }
    }
}

/// Prints an invalid argument of `size`, and the usage.
fn print_size_fault(rt: &HostRuntime, arguments: &[String], fault: SettingsFault) -> ExitCode
    ensures { exit_status result ≡ usage_status }
{
    let wrong = SettingsMessage { fault, arguments };
    let _ = eprint!(rt; "size: {wrong}; hls_origin --help says more\n{USAGE}");
    ExitCode::from(2)
}

/// Prints what the settings need, with or without a journal.
fn print_needs(rt: &HostRuntime, settings: &Settings, has_journal: bool) -> ExitCode {
    let Some(needs) = settings_needs(settings, has_journal) else {
        return ExitCode::from(1);
    };
    let Ok(text) = write_needs(rt.alloc(), &needs) else {
        let _ = eprintln!(rt; "size: Memory");
        return ExitCode::from(1);
    };
    if write_whole(&mut Counted::new(io::writer(rt)), &text) {
        ExitCode::SUCCESS
    } else {
        let _ = eprintln!(rt; "size: WriteFailed");
        ExitCode::from(1)
    }
}

/// Runs `size`, with the arguments of `serve`.
fn run_size_command(rt: &HostRuntime, arguments: &[String]) -> ExitCode {
    match read_settings(rt.alloc(), arguments) {
        Ok(settings) => print_needs(rt, &settings, find_journal_argument(arguments).is_some()),
        Err(SettingsFault::Memory) => {
            let _ = eprintln!(rt; "size: Memory");
            ExitCode::from(1)
        }
        Err(fault) => print_size_fault(rt, arguments, fault),
    }
}

/// Whether the arguments ask for help: `help`, or an option for it alone or after a command.
fn asks_for_help(arguments: &[String]) -> bool {
    match arguments {
        [argument] => matches!(argument.as_str(), "help" | "--help" | "-h"),
        [_, argument] => matches!(argument.as_str(), "--help" | "-h"),
        _ => false,
    }
}

/// Runs the command that the first argument names; without one, `cut`.
fn run_command<R>(rt: &HostRuntime, threads: &R, arguments: &[String]) -> ExitCode
where
    R: Net<Listener = TcpListener, Stream = TcpStream>
        + Files<File = File>
        + Threads
        + Wait
        + Clock
        + Eprint
        + Env
        + Sync,
{
    if asks_for_help(arguments) {
        return print_help(rt);
    }
    let Some((first, rest)) = arguments.split_first() else {
        return run_cut_command(rt, arguments);
    };
    match first.as_str() {
        "cut" => run_cut_command(rt, rest),
        "check" => run_check_command(rt, threads, rest),
        "lint" => run_lint_command(rt, rest),
        "explain" => run_explain_command(rt, rest),
        "size" => run_size_command(rt, rest),
        "serve" => end_serve(rt, rest, run_serve(threads, rt, rt.alloc(), rest)),
        "journal" => match rest {
            [option, given @ ..] if option.as_str() == "--check" => {
                run_check_journal_command(rt, threads, given)
            }
            _ => run_journal_command(rt, rest),
        },
        "--version" if rest.is_empty() => print_version(rt),
        "help" | "--help" | "-h" | "--version" => print_usage_fault(rt, rest),
        _ => print_usage_fault(rt, arguments),
    }
}

fn main(rt: HostRuntime) -> ExitCode {
    match read_arguments(&rt) {
        Ok(arguments) => run_command(&rt, &rt, arguments.as_slice()),
        Err(fault) if fault.kind() == ErrorKind::InvalidData => print_not_utf8(&rt),
        Err(_) => end_cut(&rt, &[], CutEnd::Refused(CutFault::Memory)),
    }
}
