ghost use Rattle.std.specs.Prelude.{◌≡◌, ◌↔◌, ℕ, List, Some};
ghost use Rattle.member_statements.specs.declared.statement.Statement.{Statement};
ghost use Rattle.member_statements.specs.Statement.{Spells};
ghost use Rattle.member_statements.specs.Reading.{statement_of};

/// A text is read as a statement exactly where it spells it.
pub fn read_statements_are_spelled()
    ensures { (bytes : List ℕ) (statement : Statement) → (statement_of bytes ≡ Some statement) ↔ Spells bytes statement }
{}
