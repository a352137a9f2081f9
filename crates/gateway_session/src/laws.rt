//! Laws of the definitions. Each function is a law: it does nothing, and what it ensures holds of every value.

ghost use Rattle.gateway_session.specs.Laws.{SaysInPieces, TakesInPieces, ReadsInPieces};

/// It doesn't matter in what pieces a reply is said.
pub fn pieces_are_said()
    ensures { SaysInPieces }
{}

/// It doesn't matter in what pieces a server's reply to one chain comes.
pub fn pieces_are_answered()
    ensures { ReadsInPieces }
{}

/// It doesn't matter in what pieces an application's chain comes.
pub fn pieces_are_taken()
    ensures { TakesInPieces }
{}
