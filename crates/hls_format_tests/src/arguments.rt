//! Parsed arguments: those after `serve` and `cut`, the name of a refusal, the numbers of a line.

use hls_commands::{ExplainEnd, run_explain};
use hls_fakes::{CallOutcome, PageWriter};
use hls_io::Counted;
use hls_settings::{CutOptionsFault, Settings, SettingsFault, read_options, read_settings};
use hls_text::parse_numbers;
use std::alloc::Global;

const VIDEO: &str = "v720:video:3000000:0";

const AUDIO: &str = "a-en:audio:128000:30000";

/// Whether the settings are those of the arguments below.
fn is_set(settings: &Settings) -> bool {
    let server = settings.server;
    server.timing.target == 8
        && server.address.port == 8080
        && settings.config.renditions().len() == 2
}

pub fn outcome_of_settings(alloc: Global) -> CallOutcome {
    let arguments = ["--target", "8", "127.0.0.1:8080", VIDEO, AUDIO];
    match read_settings(alloc, &arguments) {
        Ok(settings) => CallOutcome::from_answer(is_set(&settings)),
        Err(SettingsFault::Memory) => CallOutcome::OutOfMemory,
        Err(_) => CallOutcome::Wrong,
    }
}

/// The outcome of invalid arguments: the first invalid one, or out of memory.
pub fn outcome_of_wrong(alloc: Global, arguments: &[&str], fault: SettingsFault) -> CallOutcome {
    match read_settings(alloc, arguments) {
        Ok(_) => CallOutcome::Wrong,
        Err(SettingsFault::Memory) => CallOutcome::OutOfMemory,
        Err(outcome) => CallOutcome::from_answer(outcome == fault),
    }
}

pub fn outcome_of_wrong_option(alloc: Global) -> CallOutcome {
    let arguments = ["--target", "0", "127.0.0.1:80", VIDEO];
    outcome_of_wrong(alloc, &arguments, SettingsFault::Target)
}

pub fn outcome_of_wrong_address(alloc: Global) -> CallOutcome {
    outcome_of_wrong(alloc, &["localhost:80", VIDEO], SettingsFault::Address)
}

pub fn outcome_of_wrong_rendition(alloc: Global) -> CallOutcome {
    let arguments = ["127.0.0.1:80", VIDEO, VIDEO];
    outcome_of_wrong(alloc, &arguments, SettingsFault::Rendition(1))
}

pub fn outcome_of_options(alloc: Global) -> CallOutcome {
    match read_options(alloc, &["--preferred", "4000000", "--certificate"]) {
        Ok(options) => {
            CallOutcome::from_answer(
                options.preferred() == Some(4_000_000) && options.wants_certificate(),
            )
        }
        Err(CutOptionsFault::Memory) => CallOutcome::OutOfMemory,
        Err(_) => CallOutcome::Wrong,
    }
}

/// The outcome of a certificate option without a plan.
pub fn outcome_of_unplanned(alloc: Global) -> CallOutcome {
    match read_options(alloc, &["--certificate"]) {
        Ok(_) => CallOutcome::Wrong,
        Err(CutOptionsFault::Memory) => CallOutcome::OutOfMemory,
        Err(outcome) => CallOutcome::from_answer(outcome == CutOptionsFault::Unplanned),
    }
}

const MEANINGS: &[u8] = b"Gone: it was trimmed.\nNotYet: it isn't there.";

/// The outcome of explaining a name, or of listing all names; nothing is written if out of memory.
pub fn outcome_of_meaning(alloc: Global, name: Option<&[u8]>, expected: &[u8]) -> CallOutcome {
    let mut output = Counted::new(PageWriter::new());
    let end = run_explain(alloc, MEANINGS, name, &mut output);
    let page = output.into_inner();
    match end {
        ExplainEnd::Explained => CallOutcome::from_answer(page.holds_text(expected)),
        ExplainEnd::Memory => CallOutcome::from_refusal(page.holds_text(b"")),
        _ => CallOutcome::Wrong,
    }
}

pub fn outcome_of_gone(alloc: Global) -> CallOutcome {
    outcome_of_meaning(alloc, Some(b"Gone"), b"Gone: it was trimmed.\n")
}

pub fn outcome_of_names(alloc: Global) -> CallOutcome {
    outcome_of_meaning(alloc, None, b"Gone\nNotYet\n")
}

/// The outcome of a name that no line has, which needs no allocation.
pub fn outcome_of_unknown(alloc: Global) -> CallOutcome {
    let mut output = Counted::new(PageWriter::new());
    let end = run_explain(alloc, MEANINGS, Some(b"Full"), &mut output);
    CallOutcome::from_answer(end == ExplainEnd::Unknown && output.into_inner().holds_text(b""))
}

pub fn outcome_of_numbers(alloc: Global) -> CallOutcome {
    match parse_numbers(alloc, b"1 20 300") {
        Ok(Some(numbers)) => CallOutcome::from_answer(
            numbers.as_slice() == [1, 20, 300].as_slice(),
        ),
        Ok(None) => CallOutcome::Wrong,
        Err(_) => CallOutcome::OutOfMemory,
    }
}

/// The outcome of a line with a superfluous blank.
pub fn outcome_of_no_numbers(alloc: Global) -> CallOutcome {
    match parse_numbers(alloc, b"1  20") {
        Ok(found) => CallOutcome::from_answer(found.is_none()),
        Err(_) => CallOutcome::OutOfMemory,
    }
}

#[test]
fn out_of_memory_then_reads_settings_again(rt: HostRuntime) {
    let alloc = rt.alloc();
    assert!(rt; outcome_of_settings(alloc).is_consistent_with(outcome_of_settings(alloc)));
    assert!(rt; outcome_of_wrong_option(alloc).is_consistent_with(outcome_of_wrong_option(alloc)));
    assert!(rt;
        outcome_of_wrong_address(alloc).is_consistent_with(outcome_of_wrong_address(alloc))
    );
    assert!(rt;
        outcome_of_wrong_rendition(alloc).is_consistent_with(outcome_of_wrong_rendition(alloc))
    );
}

#[test]
fn out_of_memory_then_reads_options_again(rt: HostRuntime) {
    let alloc = rt.alloc();
    assert!(rt; outcome_of_options(alloc).is_consistent_with(outcome_of_options(alloc)));
    assert!(rt; outcome_of_unplanned(alloc).is_consistent_with(outcome_of_unplanned(alloc)));
}

#[test]
fn out_of_memory_then_explains_again(rt: HostRuntime) {
    let alloc = rt.alloc();
    assert!(rt; outcome_of_gone(alloc).is_consistent_with(outcome_of_gone(alloc)));
    assert!(rt; outcome_of_names(alloc).is_consistent_with(outcome_of_names(alloc)));
    assert!(rt; outcome_of_unknown(alloc).is_consistent_with(outcome_of_unknown(alloc)));
}

#[test]
fn out_of_memory_then_reads_numbers_again(rt: HostRuntime) {
    let alloc = rt.alloc();
    assert!(rt; outcome_of_numbers(alloc).is_consistent_with(outcome_of_numbers(alloc)));
    assert!(rt; outcome_of_no_numbers(alloc).is_consistent_with(outcome_of_no_numbers(alloc)));
}
