//! Laws of the definitions. Each function is a law: it does nothing, and what it ensures holds of every value.

ghost use Rattle.script_laws.specs.Laws.{MadeScriptsAreRead};

/// A script that is made for numbers within their limits has no bad line.
pub fn made_scripts_are_read()
    ensures { MadeScriptsAreRead }
{}
