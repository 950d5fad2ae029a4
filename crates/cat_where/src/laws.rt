//! Laws of the grammar and of the reader, each as a function whose contract is the law.

ghost use Rattle.std.specs.Prelude.{ℕ, ◌≡◌, List};
ghost use Rattle.st_parse.specs.Lexemes.{lexemes};
ghost use Rattle.cat_where.specs.Lexing.{lexed, whole_lexemes};
ghost use Rattle.cat_where.specs.Verdicts.{IsVerdict, Verdict, verdict};

/// The verdict of each text, as it is computed, is the one that the grammar gives.
pub fn verdict_is_true()
    ensures { (text : List ℕ) → IsVerdict text (verdict text) }
{}

/// The grammar gives each text one verdict: what it asks for, or one first bad place with its cause.
pub fn one_verdict()
    ensures { (text : List ℕ) (a b : Verdict) → IsVerdict text a → IsVerdict text b → a ≡ b }
{}

/// The lexemes of a structured query are those of a statement.
pub fn same_lexemes()
    ensures { (text : List ℕ) → whole_lexemes (lexed text) ≡ lexemes text }
{}
