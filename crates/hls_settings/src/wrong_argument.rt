//! Finds the first invalid argument.
ghost use Rattle.std.specs.Prelude.{◌≡◌, ◌∷◌, map, option_map};
ghost use Rattle.std.specs.Str.{bytes_eq};
ghost use Rattle.hls_settings.specs.WrongArguments.{awaits_value, has_value, option_name, is_given, is_option, option_fault, plain_fault, find_stray, takes_value, value_fault, argument_fault, wrong_argument};

use crate::number::split_at_char;
use std::convert::AsStr;

/// Why an argument is invalid.
#[derive(Clone, Copy, Debug, PartialEq, Eq, Drop)]
pub enum ArgumentFault {
    /// There is no such option.
    Unknown,
    /// An earlier argument gives the same option.
    Repeated,
    /// The option takes a value and has none.
    NoValue,
    /// The option takes no value and has one.
    Unneeded,
    /// The argument is no option, no option's value, and nothing else that the command takes.
    Stray,
}

/// The first invalid argument.
#[derive(Clone, Copy, Debug, PartialEq, Eq, Drop)]
pub struct WrongArgument {
    /// The index of the argument, from 0.
    pub index: usize,
    pub fault: ArgumentFault,
}

/// Returns an argument up to its first `=`, and whether it has one.
pub fn option_name(argument: &str) -> (&str, bool)
    ensures { (result.0.now, result.1) ≡ option_name argument.now }
{
    match split_at_char(argument, '=') {
        Some((head, _)) => (head, true),
        None => (argument, false),
    }
}

/// Whether the argument begins with a hyphen, and is longer.
fn is_option(argument: &str) -> bool
    ensures { result ≡ is_option argument.now }
{
    match argument.as_bytes() {
        [first, _, ..] => *first == b'-',
        _ => false,
    }
}

/// Whether this is the option with that long name.
fn is_named(option: &str, name: &str) -> bool
    ensures { result ≡ bytes_eq option.now (45 ∷ 45 ∷ name.now) }
{
    match option.as_bytes() {
        [b'-', b'-', rest @ ..] => rest == name.as_bytes(),
        _ => false,
    }
}

/// Whether the option `--name` takes a value; `None` if there is no such option.
fn takes_value(options: &[(&str, bool)], option: &str) -> Option<bool>
    ensures { result ≡ takes_value (map (λ o. (o.0.now, o.1)) options.now) option.now }
{
    for (name, takes) in options {
        if is_named(option, name) {
            return Some(*takes);
        }
    }
    None
}

/// Whether one of the arguments gives the option.
pub(crate) fn is_given<S: AsStr>(arguments: &[S], option: &str) -> bool
    ensures { result ≡ is_given (map S.text arguments.now) option.now }
{
    for argument in arguments {
        if option_name(argument.as_str()).0 == option {
            return true;
        }
    }
    false
}

/// Whether the arguments after an option begin with its value.
fn has_value<S: AsStr>(after: &[S]) -> bool
    ensures { result ≡ has_value (map S.text after.now) }
{
    match after.first() {
        Some(argument) => !is_option(argument.as_str()),
        None => false,
    }
}

/// Returns the fault of an option, by whether it takes a value and whether one is attached to it.
fn value_fault<S: AsStr>(takes: bool, is_attached: bool, after: &[S]) -> Option<ArgumentFault>
    ensures { result ≡ value_fault takes is_attached (map S.text after.now) }
{
    match (takes, is_attached) {
        (true, false) if !has_value(after) => Some(ArgumentFault::NoValue),
        (false, true) => Some(ArgumentFault::Unneeded),
        _ => None,
    }
}

/// Returns the fault of an argument that begins with a hyphen.
fn option_fault<S: AsStr>(
    options: &[(&str, bool)],
    before: &[S],
    argument: &str,
    after: &[S],
) -> Option<ArgumentFault>
    ensures { result ≡ option_fault (takes_value (map (λ o. (o.0.now, o.1)) options.now) (option_name argument.now).0) (map S.text before.now) (option_name argument.now) (map S.text after.now) }
{
    let (option, is_attached) = option_name(argument);
    let Some(takes) = takes_value(options, option) else {
        return Some(ArgumentFault::Unknown);
    };
    if is_given(before, option) {
        return Some(ArgumentFault::Repeated);
    }
    value_fault(takes, is_attached, after)
}

/// Whether a value follows the last argument.
fn awaits_value<S: AsStr>(options: &[(&str, bool)], last: Option<&S>) -> bool
    ensures { result ≡ awaits_value (map (λ o. (o.0.now, o.1)) options.now) (option_map (λ w. S.text w.now) last.entry) }
{
    match last {
        Some(argument) => takes_value(options, argument.as_str()).unwrap_or(false),
        None => false,
    }
}

/// Returns the fault of an argument, if any, given those before and after it.
fn argument_fault<S: AsStr>(
    options: &[(&str, bool)],
    takes_arguments: bool,
    before: &[S],
    argument: &str,
    after: &[S],
) -> Option<ArgumentFault>
    ensures { result ≡ argument_fault (map (λ o. (o.0.now, o.1)) options.now) takes_arguments (map S.text before.now) argument.now (map S.text after.now) }
{
    if is_option(argument) {
        return option_fault(options, before, argument, after);
    }
    if takes_arguments || awaits_value(options, before.last()) {
        return None;
    }
    Some(ArgumentFault::Stray)
}

/// Returns the first of the arguments after `--`, if the command takes none.
fn find_stray<S: AsStr>(takes_arguments: bool, index: usize, after: &[S]) -> Option<WrongArgument>
    ensures { result ≡ find_stray takes_arguments index (map S.text after.now) }
{
    if takes_arguments || after.is_empty() {
        return None;
    }
    Some(WrongArgument {
        index,
        fault: ArgumentFault::Stray,
    })
}

/// Returns the first invalid argument, by a command's options (their long names, and whether each takes a value) and whether it takes
/// arguments that are no options.
pub fn find_wrong_argument<S: AsStr>(
    options: &[(&str, bool)],
    takes_arguments: bool,
    arguments: &[S],
) -> Option<WrongArgument>
    ensures { result ≡ wrong_argument (map (λ o. (o.0.now, o.1)) options.now) takes_arguments (map S.text arguments.now) }
{
    for index in 0..arguments.len() {
        let argument = arguments[index].as_str();
        let before = &arguments[..index];
        let after = &arguments[index + 1..];
        if argument == "--" {
            return find_stray(takes_arguments, index + 1, after);
        }
        if let Some(fault) = argument_fault(options, takes_arguments, before, argument, after) {
            return Some(WrongArgument { index, fault });
        }
    }
    None
}
