//! Parses the arguments of `serve` and `cut`, and reports the first invalid one with its valid range.
#![tactic(auto)]

mod command;
mod cut_options;
mod cut_options_fault;
mod epoch;
mod fault;
mod file_arguments;
mod journal_settings;
mod listen_address;
mod mending;
mod number;
mod printable_argument;
mod rendition_spec;
mod server_settings;
mod settings;
mod settings_message;
mod thread_settings;
mod window_settings;
mod wrong_argument;

pub use cut_options::{CutOptions, read_options};
pub use cut_options_fault::CutOptionsFault;
pub use fault::SettingsFault;
pub use file_arguments::{find_base_argument, find_journal_argument};
pub use journal_settings::{
    JournalOption, JournalSettings, JournalSettingsFault, SyncSetting, read_journal_settings,
};
pub use listen_address::{ListenAddress, read_address};
pub use printable_argument::PrintableArgument;
pub use server_settings::ServerSettings;
pub use settings::{Settings, read_settings};
pub use settings_message::SettingsMessage;
pub use thread_settings::ThreadSettings;
pub use window_settings::WindowSettings;
pub use wrong_argument::{ArgumentFault, WrongArgument};
