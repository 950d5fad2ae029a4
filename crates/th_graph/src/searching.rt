//! Terms among terms that rise.

ghost use Rattle.std.specs.Prelude.{◌≡◌, ◌≤◌, true, IfErr, is_ok, length};
ghost use Rattle.th_graph.specs.Rising.{is_among_terms, rise, term_place};

use crate::terms::Term;

/// Where the term stands among terms that rise, or else where it belongs. Its cost is the logarithm of their number.
pub(crate) fn search(terms: &[Term], term: &Term) -> Result<usize, usize>
    requires { rise terms.now ≡ true }
    ensures found { is_ok result ≡ is_among_terms term.now terms.now }
    ensures place { IfErr result (λ i. i ≡ term_place term.now terms.now) }
    ensures within { IfErr result (λ i. i ≤ length terms.now) }
{
    let bytes = term.as_str().as_bytes();
    terms.binary_search_by(|other| other.as_str().as_bytes().cmp(bytes))
}
