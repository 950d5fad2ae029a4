//! Laws of the grammar and of the reader, each as a function whose contract is the law.

ghost use Rattle.std.specs.Prelude.{ℕ, ◌≡◌, ◌+◌, List, Some, None, true, false};
ghost use Rattle.q_parse.specs.Faults.{IsVerdict, Verdict};
ghost use Rattle.q_parse.specs.Verdicts.{verdict};
ghost use Rattle.q_lex.specs.Words.{GrammarRules, strict};
ghost use Rattle.q_lex.specs.Lexing.{query_lexemes, bare, too_large};
ghost use Rattle.q_tree.specs.Limits.{keeps_limits};
ghost use Rattle.q_tree.specs.Trees.{Tree};
ghost use Rattle.q_parse.specs.Grammar.{IsQuery, BeginsQuery};
ghost use Rattle.q_parse.specs.Machine.{read_from, start_state, tree_at_end, State};
ghost use Rattle.q_lex.specs.declared.lexemes.Lexeme.{Lexeme};

/// Each text's verdict is what the grammar says of it: that it is too large; or its tree; or the place of its first bad lexeme, or of its end, and the cause.
pub fn verdict_is_true()
    ensures { (text : List ℕ) → IsVerdict text (verdict text) }
{}

/// No other verdict is true of a text: what a text is found to be is determined by the grammar alone, the cause and the place of a fault too.
pub fn one_verdict()
    ensures { (text : List ℕ) (v w : Verdict) → IsVerdict text v → IsVerdict text w → v ≡ w }
{}

/// What the grammar takes as a query, under any rules, is read as just this query, with its tree: the reader misses none.
pub fn each_query_is_read()
    ensures { (r : GrammarRules) (ls : List Lexeme) (t : Tree) → IsQuery r ls t → tree_at_end (read_from r (Some start_state) ls) ≡ Some t }
{}

/// The grammar is unambiguous: lexemes are a query with at most one tree.
pub fn one_query()
    ensures { (r : GrammarRules) (ls : List Lexeme) (s t : Tree) → IsQuery r ls s → IsQuery r ls t → s ≡ t }
{}

/// The reader takes nothing else, and stops as soon as it can: what it reads to a tree is a query with this tree, what it has read so far begins some query, and what it refuses begins none. So the first lexeme that it refuses is the first bad one.
pub fn first_bad()
    ensures sound { (r : GrammarRules) (ls : List Lexeme) (t : Tree) → tree_at_end (read_from r (Some start_state) ls) ≡ Some t → IsQuery r ls t }
    ensures begins { (r : GrammarRules) (ls : List Lexeme) (s : State) → read_from r (Some start_state) ls ≡ Some s → BeginsQuery r ls }
    ensures refused { (r : GrammarRules) (ls : List Lexeme) → read_from r (Some start_state) ls ≡ None → BeginsQuery r ls → ⊥ }
{}

/// Each query of the grammar keeps its limits, where the text isn't too large: no word is longer than a text may be, and weights, thresholds, levels, spans, the number of operands and sums are in their ranges.
pub fn each_query_keeps_limits()
    ensures { (text : List ℕ) (t : Tree) → IsQuery strict (bare (query_lexemes text)) t → too_large text ≡ false → keeps_limits t ≡ true }
{}
