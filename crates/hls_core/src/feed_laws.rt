//! Theorems about the definitions. The function has no body: its contract is the law.

ghost use Rattle.hls_core.specs.Shortest.{ShortestPartExists, ShortestFaultExists};

/// In every content, a part that it shows after others has a shortest prefix that shows it, and so does a fault of a box.
pub fn shortest_prefixes_exist()
    ensures part { ShortestPartExists }
    ensures fault { ShortestFaultExists }
{}
