//! Laws of the definitions. Each function is a law: it does nothing, and what it ensures holds of every value.

ghost use Rattle.std.specs.Prelude.{List};
ghost use Rattle.drda_gateway.specs.World.{after_all, start_world, Event};
ghost use Rattle.drda_gateway.specs.Dedicated.{AreDedicated};

/// Whatever happens, and in whatever order and pieces: each application was sent the beginning of what a dedicated session
/// sends for the bytes that were taken, and all of it where nothing is left to say.
pub fn sessions_are_dedicated()
    ensures { (events : List Event) → AreDedicated (after_all start_world events) }
{}
