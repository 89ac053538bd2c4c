//! Theorems about the definitions. Each function has no body: its contract is the law.

ghost use Rattle.hls_connection.specs.Connections.{SuitsIsStable};

/// A keeper that suits a connection suits it whatever others do by the same keeper.
pub fn suits_is_stable()
    ensures { SuitsIsStable }
{}
