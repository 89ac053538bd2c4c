//! The bytes of a recording from an offset to the end of its init section or unit.
ghost use Rattle.std.specs.Prelude.{◌≡◌, ◌+◌, ◌<◌, ◌≤◌, length, Some};
ghost use Rattle.std.specs.Option.{option_copied};
ghost use Rattle.hls_record.specs.RecordingData.{offset_at, total_of, piece_at};
ghost use Rattle.hls_record.specs.IsRecorded.{IsRecorded};
ghost use Rattle.hls_record.specs.Search.{BeginsAt, IsInUnit};

use super::Recording;
use crate::recorded_unit::SearchKey;
use crate::unit_search::first_from;

impl Recording {
    /// The bytes from byte `at` of the resource to the end of the init section or unit that contains it.
    ///
    /// None if that byte is trimmed, or `at` is at least the total. Takes logarithmic time.
    pub fn piece(&self, at: u64) -> Option<&[u8]>
        ensures { option_copied result ≡ piece_at self.now at }
    {
        let head = self.head.as_slice();
        if at < head.len() as u64 {
            return Some(&head[at as usize..]);
        }
        if at < self.offset(self.units.first()) {
            return None;
        }
        if self.total <= at {
            return None;
        }
        let n = self.find_unit(at);
        Some(self.piece_in_unit(n, at))
    }

    /// The number of the kept unit that contains byte `at`. Takes logarithmic time.
    pub fn find_unit(&self, at: u64) -> u64
        requires low { offset_at self.now self.now.floor ≤ at }
        requires high { at < total_of self.now }
        ensures { IsInUnit self.now at result }
    {
        first_from(&self.items, SearchKey::Offset, self.units.first(), at + 1) - 1
    }

    /// The number of the unit that begins at byte `at` of the resource, trimmed or not; the number of units at the resource's end. None if
    /// no unit begins there. Takes logarithmic time.
    #[tactic(auto, using(crate::proofs::Places::none_begins, crate::proofs::Places::within_first))]
    pub fn unit_starting_at(&self, at: u64) -> Option<u64>
        ensures begins { BeginsAt self.now at result }
        ensures valid { IsRecorded self.now }
    {
        let n = first_from(&self.items, SearchKey::Offset, 0, at);
        if self.offset(n) == at {
            return Some(n);
        }
        None
    }

    // The bytes from byte `at`, which is in the kept unit `n`, to the end of that unit.
    fn piece_in_unit(&self, n: u64, at: u64) -> &[u8]
        requires { IsInUnit self.now at n }
        ensures { Some result.now ≡ piece_at self.now at }
    {
        let from = (at - self.offset(n)) as usize;
        match self.units.get(n) {
            Some(unit) => {
                let unit = unit.as_slice();
                &unit[from..]
            }
            None => unreachable!(),
        }
    }
}
