//! The options that name files: of a base, and the folder of a journal.
ghost use Rattle.std.specs.Prelude.{◌≡◌, map, option_map};
ghost use Rattle.hls_settings.specs.FileArguments.{attached_value, base_argument, journal_argument, option_value};

use crate::number::split_at_char;
use std::convert::AsStr;

/// Returns the value in an argument NAME=VALUE.
fn attached_value<'a>(argument: &'a str, name: &str) -> Option<&'a str>
    ensures { option_map (λ v. v.now) result ≡ attached_value name.entry.now argument.entry.now }
{
    match split_at_char(argument, '=') {
        Some((head, value)) if head == name => Some(value),
        _ => None,
    }
}

/// Returns the value of an option, given as NAME VALUE or NAME=VALUE. The arguments must be valid.
pub(crate) fn find_option_value<'a, S: AsStr>(arguments: &'a [S], name: &str) -> Option<&'a str>
    ensures { option_map (λ v. v.now) result ≡ option_value name.entry.now (map S.text arguments.entry.now) }
{
    let mut is_named = false;
    for argument in arguments {
        let argument = argument.as_str();
        if is_named {
            return Some(argument);
        }
        if let Some(value) = attached_value(argument, name) {
            return Some(value);
        }
        is_named = argument == name;
    }
    None
}

/// Returns the file of the base, if the option `--base` is given. The arguments must be valid.
pub fn find_base_argument<'a, S: AsStr>(arguments: &'a [S]) -> Option<&'a str>
    ensures { option_map (λ v. v.now) result ≡ base_argument (map S.text arguments.entry.now) }
{
    find_option_value(arguments, "--base")
}

/// Returns the folder of the journal, if the option `--journal` is given. The arguments must be valid.
pub fn find_journal_argument<'a, S: AsStr>(arguments: &'a [S]) -> Option<&'a str>
    ensures { option_map (λ v. v.now) result ≡ journal_argument (map S.text arguments.entry.now) }
{
    find_option_value(arguments, "--journal")
}
