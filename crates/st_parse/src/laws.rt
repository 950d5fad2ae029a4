//! Laws of the definitions, which say that they mean what they should.

ghost use Rattle.std.specs.Prelude.{◌≡◌, ◌↔◌, ℕ, List, Some};
ghost use Rattle.st_parse.specs.Lexemes.{lexemes};
ghost use Rattle.st_parse.specs.Writing.{IsText};
ghost use Rattle.st_parse.specs.Grammar.{IsStatement, statement_of};
ghost use Rattle.st_parse.specs.declared.lexemes.Lexeme.{Lexeme};
ghost use Rattle.st_parse.specs.declared.statements.Statement.{Statement};

/// A text is written as at most one list of lexemes, and that is the one that is read from it.
pub fn written_is_read()
    ensures { (ls : List Lexeme) (text : List ℕ) → IsText ls text ↔ (lexemes text ≡ Some ls) }
{}

/// Lexemes are at most one statement.
pub fn one_statement()
    ensures { (ls : List Lexeme) (s t : Statement) → IsStatement ls s → IsStatement ls t → s ≡ t }
{}

/// The statement that is read from lexemes is the one that they are.
pub fn statement_is_read()
    ensures { (ls : List Lexeme) (s : Statement) → IsStatement ls s ↔ (statement_of ls ≡ Some s) }
{}
