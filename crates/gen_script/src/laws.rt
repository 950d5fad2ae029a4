//! Laws of scripts. Each function here only states laws, which its contract proves.

ghost use Rattle.std.specs.Prelude.{ℕ, ◌≡◌, ◌+◌, length};
ghost use Rattle.gen_script.specs.Statements.{statements};

/// The script of n has n rows and 22 statements more.
pub fn script_laws()
    ensures { (n : ℕ) → length (statements n) ≡ n + 22 }
{}
