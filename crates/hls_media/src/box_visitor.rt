//! Visits the boxes that fill a text, in order.

ghost use Rattle.std.specs.Prelude.{◌≡◌, ℕ, ◌+◌, ◌*◌, ◌^◌, ◌≤◌, Option, Some, List, length, IfSome};
ghost use Rattle.hls_media.specs.RisesBy.{RisesBy};
ghost use Rattle.hls_media.specs.Folds.{fold_content};

use crate::box_headers::read_box_header;
use hls_time::Ticks;

/// A visitor of the boxes that fill a text.
pub trait BoxVisitor {
    /// What was found in the boxes so far.
    type Found: Drop;

    // what is found with one more box of this type and content, or None if the box isn't valid
    ghost step: { Self → Self.Found → ℕ → List ℕ → Option Self.Found };

    // what is known of it after boxes of the given number of bytes
    ghost known: { Self → ℕ → Self.Found → Type 0 };

    // the maximum number of fields that are read for each byte
    ghost fields: { ℕ };

    /// Visits one more box.
    fn visit_box(
        &self,
        state: Self::Found,
        kind: u32,
        content: &[u8],
        ticks: &mut Ticks,
    ) -> Option<Self::Found>
        requires len { length content.now ≤ 2 ^ 26 }
        requires known { known self.now (2 ^ 26) state }
        requires room { ticks.old + length content.now * fields ≤ 2 ^ 62 + 2 ^ 60 }
        ensures value { result ≡ step self.now state kind content.now }
        ensures known { IfSome result (λ s. (n : ℕ) → known self.now n state → known self.now (n + 8 + length content.now) s) }
        ensures counted { RisesBy (length content.now * fields) ticks.old ticks.new };

    // it stays known as the number of bytes increases
    ghost stays_known: { (g : Self) (n m : ℕ) (s : Self.Found) → n ≤ m → known g n s → known g m s };

    // headers are read, so it is at least one
    ghost some: { 1 ≤ fields };
}

/// Visits the boxes that fill a text. Returns None if no boxes fill it, or one isn't valid.
pub fn visit_boxes<G: BoxVisitor>(
    visitor: &G,
    start: G::Found,
    content: &[u8],
    ticks: &mut Ticks,
) -> Option<G::Found>
    requires len { length content.now ≤ 2 ^ 26 }
    requires known { G.known visitor.now 0 start }
    requires room { ticks.old + length content.now * G.fields ≤ 2 ^ 62 + 2 ^ 60 }
    ensures value { result ≡ fold_content (G.step visitor.now) Some start content.now }
    ensures known { IfSome result (λ s. G.known visitor.now (length content.now) s) }
    ensures counted { RisesBy (length content.now * G.fields) ticks.old ticks.new }
{
    let mut state = start;
    let mut rest = content;
    'boxes: while !rest.is_empty() {
        let Some(header) = read_box_header(rest, ticks) else {
            return None;
        };
        let inside = &rest[header.head as usize..header.size as usize];
        let Some(next) = visitor.visit_box(state, header.kind, inside, ticks) else {
            return None;
        };
        state = next;
        rest = &rest[header.size as usize..];
    }
    Some(state)
}
