//! Why a sample can't be made.

use hls_core::config::ConfigFault;
use hls_core_laws::refusal::Refusal;
use hls_media_laws::fault::MediaFault;
use std::alloc::{AllocError, AllocFailed};

/// Why a sample channel can't be made.
#[derive(Clone, Copy, Debug, PartialEq, Eq)]
pub enum SampleFault {
    /// The configuration is invalid.
    Config,
    /// The bytes aren't a readable init section or unit.
    Media,
    /// The rendition has no init section.
    NotBegun,
    /// The channel refuses the event, or already has it.
    NotNew,
    /// Out of memory.
    Memory,
}

impl From<AllocError> for SampleFault {
    fn from(_fault: AllocError) -> SampleFault {
        SampleFault::Memory
    }
}

impl<T: Drop> From<AllocFailed<T>> for SampleFault {
    fn from(_fault: AllocFailed<T>) -> SampleFault {
        SampleFault::Memory
    }
}

impl From<ConfigFault> for SampleFault {
    fn from(fault: ConfigFault) -> SampleFault {
        match fault {
            ConfigFault::Memory => SampleFault::Memory,
            _ => SampleFault::Config,
        }
    }
}

impl From<MediaFault> for SampleFault {
    fn from(fault: MediaFault) -> SampleFault {
        match fault {
            MediaFault::Memory => SampleFault::Memory,
            _ => SampleFault::Media,
        }
    }
}

impl From<Refusal> for SampleFault {
    fn from(refusal: Refusal) -> SampleFault {
        match refusal {
            Refusal::Memory => SampleFault::Memory,
            _ => SampleFault::NotNew,
        }
    }
}
