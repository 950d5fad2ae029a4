//! Laws of the grammar and of the reader, each as a function whose contract is the law.

ghost use Rattle.std.specs.Prelude.{ℕ, ◌≡◌, true, List};
ghost use Rattle.q_tree.specs.Limits.{keeps_limits};
ghost use Rattle.q_tree.specs.Trees.{Tree};
ghost use Rattle.cat_query.specs.PlainTrees.{is_plain_tree};
ghost use Rattle.cat_query.specs.Verdicts.{Found, IsVerdict, Verdict, verdict};

/// The verdict of each text, as it is computed, is the one that the grammar gives.
pub fn verdict_is_true()
    ensures { (text : List ℕ) → IsVerdict text (verdict text) }
{}

/// The grammar gives each text one verdict: one tree, or one first bad place.
pub fn one_verdict()
    ensures { (text : List ℕ) (a b : Verdict) → IsVerdict text a → IsVerdict text b → a ≡ b }
{}

/// The tree of each query keeps the limits of queries, and has words, AND, OR and NOT alone.
pub fn queries_are_plain()
    ensures limits { (text : List ℕ) (t : Tree) → verdict text ≡ Found t → keeps_limits t ≡ true }
    ensures plain { (text : List ℕ) (t : Tree) → verdict text ≡ Found t → is_plain_tree t ≡ true }
{}
