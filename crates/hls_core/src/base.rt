//! What precedes the recordings of a process: what earlier processes of the channel served.

ghost use Rattle.std.specs.Prelude.{◌≡◌, ◌↔◌, ◌<◌, ◌≤◌, ◌==◌, IsTrue, All, IfSome, MatchOption, Some, None, false, length, position, slice_index_or};
ghost use Rattle.std.specs.List.{list_all};
ghost use Rattle.hls_core_laws.specs.Base.{IsBase, no_base, is_run_byte, is_run_name, run_field, run_text, bytes_before_base, base_limit};
ghost use Rattle.hls_core.specs.Bases.{IsNoBase, base_from, base_of_run};

use std::marker::Model;

/// The longest name of a run, in bytes.
pub const RUN_LIMIT: usize = 16;

/// The greatest number of a base.
pub const BASE_LIMIT: u64 = 900000000000000;

/// What precedes the recordings of a process: the run that names its media paths, and the numbers from which its playlists, ranges and
/// versions count. Each number is at most 9 * 10^14.
#[derive(Clone, Copy, Drop)]
pub struct Base {
    /// The run's name, filled up with zero bytes.
    run: [u8; 16],
    segments: u64,
    marks: u64,
    marked: bool,
    /// By rendition; 0 after the last one.
    bytes: [u64; 16],
    version: u64,
}

impl Model for Base {
    ghost use Rattle.hls_core_laws.specs.Base.{BaseData, IsBase};

    ghost Value = { BaseData };

    ghost view = { λ b. record { run = b.run; segments = b.segments; marks = b.marks; marked = b.marked; bytes = b.bytes; version = b.version } };

    ghost inverse = { λ d. record { run = d.run; segments = d.segments; marks = d.marks; marked = d.marked; bytes = d.bytes; version = d.version } };

    ghost invariant = { λ b. IsBase (record { run = b.run; segments = b.segments; marks = b.marks; marked = b.marked; bytes = b.bytes; version = b.version }) };
}

impl Base {
    /// Returns the base of a new channel: nothing precedes, and the run has no name.
    pub fn none() -> Base
        ensures { result ≡ no_base }
    {
        Base {
            run: [0; 16],
            segments: 0,
            marks: 0,
            marked: false,
            bytes: [0; 16],
            version: 0,
        }
    }

    /// Makes a base: the run's name, filled up with zero bytes; and what precedes the first segment of the process, the number of
    /// segments and of their marks, whether that segment has a mark, the number of bytes of each rendition's units, and of log entries.
    /// `None` if that isn't possible.
    pub fn new(
        run: [u8; 16],
        segments: u64,
        marks: u64,
        marked: bool,
        bytes: [u64; 16],
        version: u64,
    ) -> Option<Base>
        ensures { MatchOption result (IsNoBase (base_from run segments marks marked bytes version)) (λ base. base ≡ base_from run segments marks marked bytes version) }
    {
        if !is_run(&run) {
            return None;
        }
        if segments < marks {
            return None;
        }
        if !may_be_marked(segments, marked) {
            return None;
        }
        if segments > BASE_LIMIT {
            return None;
        }
        if version > BASE_LIMIT {
            return None;
        }
        if !are_few(&bytes) {
            return None;
        }
        Some(Base {
            run,
            segments,
            marks,
            marked,
            bytes,
            version,
        })
    }

    /// Parses the name of a run: 1 to 16 letters and digits. Returns it filled up with zero bytes.
    #[tactic(auto, using(crate::proofs::RunNames::name_padded, crate::proofs::RunNames::no_name, crate::proofs::RunNames::name_fits))]
    pub fn parse_run(text: &[u8]) -> Option<[u8; 16]>
        ensures { result ≡ run_field text.now }
    {
        if !is_run_name(text) {
            return None;
        }
        let mut run = [0; 16];
        run[..text.len()].copy_from_slice(text);
        Some(run)
    }

    /// Returns the base of a new channel with a run, which is 1 to 16 letters and digits, filled up with zero bytes.
    pub fn of_run(run: [u8; 16]) -> Option<Base>
        ensures { MatchOption result (IsNoBase (base_of_run run)) (λ base. base ≡ base_of_run run) }
    {
        Base::new(run, 0, 0, false, [0; 16], 0)
    }

    /// Returns the run's name, filled up with zero bytes.
    pub fn run(&self) -> [u8; 16]
        ensures value { result ≡ self.now.run }
        ensures valid { IsBase self.now }
    {
        self.run
    }

    /// Returns the run's name.
    pub fn run_name(&self) -> &[u8]
        ensures value { result.now ≡ run_text self.now.run }
        ensures valid { IsBase self.now }
    {
        name_in(&self.run)
    }

    /// Returns the number of segments that precede.
    pub fn segments(&self) -> u64
        ensures value { result ≡ self.now.segments }
        ensures valid { IsBase self.now }
    {
        self.segments
    }

    /// Returns the number of their marks.
    pub fn marks(&self) -> u64
        ensures value { result ≡ self.now.marks }
        ensures valid { IsBase self.now }
    {
        self.marks
    }

    /// Whether the first segment of the process has a mark.
    pub fn marked(&self) -> bool
        ensures value { result ≡ self.now.marked }
        ensures valid { IsBase self.now }
    {
        self.marked
    }

    /// Returns the number of bytes of a rendition's units that precede.
    pub fn bytes(&self, rendition: usize) -> u64
        ensures value { result ≡ bytes_before_base self.now rendition }
        ensures few { result ≤ base_limit }
        ensures valid { IsBase self.now }
    {
        if rendition < RUN_LIMIT {
            self.bytes[rendition]
        } else {
            0
        }
    }

    /// Returns the number of log entries that precede.
    pub fn version(&self) -> u64
        ensures value { result ≡ self.now.version }
        ensures valid { IsBase self.now }
    {
        self.version
    }

    /// Whether two bases are equal.
    pub(crate) fn equals(&self, other: &Base) -> bool
        ensures { IsTrue result ↔ (self.now ≡ other.now) }
    {
        self.run == other.run
            && self.segments == other.segments
            && self.marks == other.marks
            && self.marked == other.marked
            && self.bytes == other.bytes
            && self.version == other.version
    }
}

fn is_run_byte(byte: u8) -> bool
    ensures { result ≡ is_run_byte byte }
{
    byte.is_ascii_digit() || byte.is_ascii_uppercase() || byte.is_ascii_lowercase()
}

fn find_zero(run: &[u8; 16]) -> Option<usize>
    ensures value { result ≡ position (λ b. b == 0) run.now }
    ensures within { IfSome result (λ at. at < length run.now) }
{
    run.iter().position(|byte| *byte == 0)
}

/// Returns the bytes before the first zero.
#[tactic(auto, using(crate::proofs::RunNames::named_at, crate::proofs::RunNames::named_all))]
fn name_in(run: &[u8; 16]) -> &[u8]
    ensures { result.now ≡ run_text run.now }
{
    match find_zero(run) {
        Some(end) => &run[..end],
        None => run.as_slice(),
    }
}

/// Whether the bytes before the first zero are letters and digits.
fn is_run(run: &[u8; 16]) -> bool
    ensures { IsTrue result ↔ All (λ b. IsTrue (is_run_byte b)) (run_text run.now) }
{
    name_in(run).iter().all(|byte| is_run_byte(*byte))
}

fn are_few(bytes: &[u64; 16]) -> bool
    ensures { IsTrue result ↔ All (λ n. n ≤ base_limit) bytes.now }
{
    bytes.iter().all(|n| *n <= BASE_LIMIT)
}

/// Whether the first segment of a process that as many segments precede may have the mark.
fn may_be_marked(segments: u64, marked: bool) -> bool
    ensures { IsTrue result ↔ (segments ≡ 0 → marked ≡ false) }
{
    segments > 0 || !marked
}

fn are_run_bytes(text: &[u8]) -> bool
    ensures { result ≡ list_all is_run_byte text.now }
{
    text.iter().all(|byte| is_run_byte(*byte))
}

/// Whether a text is the name of a run.
fn is_run_name(text: &[u8]) -> bool
    ensures { result ≡ is_run_name text.now }
{
    !text.is_empty() && text.len() <= RUN_LIMIT && are_run_bytes(text)
}
