//! Laws of journals. Each function has no body: its contract is the law.

ghost use Rattle.hls_journal.specs.Laws.{BytesDetermineConfigurations};

/// A configuration is determined by its bytes in the record of a channel, but for its base, which is beside them.
pub fn bytes_determine_configurations()
    ensures { BytesDetermineConfigurations }
{}
