//! Laws of the definitions. Each function is a law: it does nothing, and what it ensures holds of every value.

ghost use Rattle.std.specs.Prelude.{◌≡◌, ℕ, ◌++◌, List};
ghost use Rattle.member_core.specs.Conversation.{Member, taken};

use plain_model::Group;

/// It doesn't matter how bytes are cut into pieces.
pub fn pieces_are_taken_as_one<G: Group>(_group: &G)
    ensures { (w : Member G G.Unit) (p q : List ℕ) → taken G.meaning q (taken G.meaning p w) ≡ taken G.meaning (p ++ q) w }
{}
