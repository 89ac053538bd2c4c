//! The search for common places, which resumes where it stopped.

ghost use Rattle.std.specs.Prelude.{◌≡◌, ◌≤◌, length, IfOk};
ghost use Rattle.hls_places_laws.specs.SearchPositions.{first_cursor, IsCursor};
ghost use Rattle.hls_places.specs.Advances.{IsAdvance};
ghost use Rattle.hls_places.specs.Decisions.{IsWalk};
ghost use Rattle.hls_check_tables.specs.Tables.{rendition_limit};

use crate::closing_place::find_closing_place;
use crate::decision::decide_fragment;
use crate::rendition_source::RenditionSource;
use crate::rendition_sources::RenditionSources;
use hls_places_laws::{Place, SearchPosition};
use std::alloc::{AllocError, Global};
use std::marker::Model;

/// Where the search for common places stopped. Each place but the closing one is at a fragment of rendition 0.
#[derive(Drop)]
pub struct PlaceCursor {
    /// The number of fragments of rendition 0 that were examined.
    done: u64,
    /// In each rendition, where the search continues.
    search_positions: Vec<SearchPosition>,
}

/// An advanced cursor, and the common places that it passed.
#[derive(Drop)]
pub struct PlaceAdvance {
    pub cursor: PlaceCursor,
    pub places: Vec<Place>,
}

impl Model for PlaceCursor {
    ghost use Rattle.hls_places_laws.specs.SearchPositions.{CursorData};

    ghost Value = { CursorData };

    ghost view = { λ c. record { done = c.done; search_positions = c.search_positions.items } };
}

impl PlaceCursor {
    /// The start of the search in the given number of renditions.
    pub fn first(alloc: Global, renditions: usize) -> Result<PlaceCursor, AllocError>
        ensures { IfOk result (λ cursor. cursor ≡ first_cursor renditions) }
    {
        Ok(PlaceCursor {
            done: 0,
            search_positions: vec![in alloc; SearchPosition { at: 0, runs: 0 }; renditions]?,
        })
    }

    /// Returns the common places that were decided since this cursor stopped, and a cursor after them. Over the life of a channel, advanced
    /// after each event, it examines each fragment of each rendition once. That isn't proved; it can be seen in the code.
    pub fn advance<'s, 'a>(
        &self,
        alloc: Global,
        sources: &'s [RenditionSource<'a>],
    ) -> Result<PlaceAdvance, AllocError>
        requires some { 1 ≤ length sources.now }
        requires few { length sources.now ≤ rendition_limit }
        requires cursor { IsCursor self.now sources.now }
        ensures { IfOk result (IsAdvance sources.now self.now.done) }
    {
        let renditions = RenditionSources::new(sources);
        let search_positions = Vec::from_slice(alloc, self.search_positions.as_slice())?;
        let mut advance = find_places(&renditions, alloc, self.done, search_positions)?;
        if let Some(place) = find_closing_place(
            &renditions,
            alloc,
            advance.cursor.search_positions.as_slice(),
        )? {
            advance.places.push(place)?;
        }
        Ok(advance)
    }
}

/// The common places at the fragments of rendition 0 from number `start`.
fn find_places(
    renditions: &RenditionSources,
    alloc: Global,
    start: u64,
    search_positions: Vec<SearchPosition>,
) -> Result<PlaceAdvance, AllocError>
    requires some { 1 ≤ length renditions.now }
    requires cursor { IsCursor (record { done = start; search_positions = search_positions.items }) renditions.now }
    ensures { IfOk result (IsWalk renditions.now start) }
{
    let first = renditions.recording(0);
    let count = first.count();
    let mut done = start;
    let mut search_positions = search_positions;
    let mut places = Vec::new(alloc);
    while done < count {
        if !decide_fragment(renditions, alloc, done, &mut search_positions, &mut places)? {
            break;
        }
        done += 1;
    }
    Ok(PlaceAdvance {
        cursor: PlaceCursor {
            done,
            search_positions,
        },
        places,
    })
}
