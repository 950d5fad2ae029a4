//! Laws of lexemes, each as a function whose contract is the law.

ghost use Rattle.std.specs.Prelude.{ℕ, ◌≡◌, List};
ghost use Rattle.q_lex.specs.declared.lexemes.Placed.{Placed};
ghost use Rattle.q_lex.specs.Lexing.{query_lexemes};
ghost use Rattle.q_lex.specs.Writing.{IsWrittenAs};

/// Each text is written as exactly one list of lexemes, and it is the one that is read.
pub fn one_list_of_lexemes()
    ensures read { (text : List ℕ) → IsWrittenAs text (query_lexemes text) }
    ensures one { (text : List ℕ) (lexemes : List Placed) → IsWrittenAs text lexemes → lexemes ≡ query_lexemes text }
{}
