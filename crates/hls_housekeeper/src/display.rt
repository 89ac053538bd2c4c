//! What the operator's log lines are made of: names, and the settings in force.

use hls_core_laws::rendition::Rendition;
use hls_instants::format_instant;
use hls_settings::Settings;
use std::fmt::{self, Display, Formatter, Write};

/// The name of a rendition, or other ASCII text.
#[derive(Clone, Copy, Drop)]
pub struct DisplayName<'a>(pub &'a [u8]);

impl<'a> Display for DisplayName<'a> {
    fn fmt<W: Write>(&self, f: &mut Formatter<W>) -> fmt::Result {
        for byte in self.0 {
            f.write_char(char::from(*byte))?;
        }
        Ok(())
    }
}

/// The names of renditions, each preceded by a space.
#[derive(Clone, Copy, Drop)]
pub struct DisplayNames<'a>(pub &'a [Rendition]);

impl<'a> Display for DisplayNames<'a> {
    fn fmt<W: Write>(&self, f: &mut Formatter<W>) -> fmt::Result {
        for rendition in self.0 {
            let name = DisplayName(&rendition.name);
            write!(f, " {name}")?;
        }
        Ok(())
    }
}

/// The settings in force, by the names of the options and in their units; the epoch is rounded down to milliseconds.
#[derive(Clone, Copy, Drop)]
pub struct DisplaySettings<'a>(pub &'a Settings);

impl<'a> Display for DisplaySettings<'a> {
    fn fmt<W: Write>(&self, f: &mut Formatter<W>) -> fmt::Result {
        let timing = self.0.server.timing;
        let workers = self.0.server.workers;
        write!(
            f,
            "target {} preferred {} window {} keep {}",
            timing.target, timing.preferred, timing.window, timing.keep
        )?;
        write!(
            f,
            " workers {} connections {} planners {} patience {}",
            workers.workers, workers.connections, workers.planners, workers.idle_timeout_s
        )?;
        match self.0.config.epoch() {
            None => Ok(()),
            Some(epoch) => write!(f, " epoch {}", DisplayName(&format_instant(epoch))),
        }
    }
}
