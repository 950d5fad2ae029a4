//! Queries of each kind, words, and the limits of a text.

/// One row on each line; the head of `tests.rt` says how they are written.
pub(crate) static ROWS: &str = r#"
# queries of each kind
quick → (P [1"quick"])
fox → (P [1"fox"])
quick*0.1 → (W 1 (P [1"quick"]))
fox MINUS quick → (MINUS (P [1"fox"]) (P [11"quick"]))
quick - fox → (MINUS (P [1"quick"]) (P [9"fox"]))
jack is big → (P [1"jack"] [6"is"] [9"big"])
is → (P [1"is"])
is NOT jack → (NOT (P [1"is"]) (P [8"jack"]))
jack AND is → (AND (P [1"jack"]) (P [10"is"]))
(a AND b) WITHIN SENTENCE → (WITHIN sentence (AND (P [2"a"]) (P [8"b"])))
alpha → (P [1"alpha"])
alpha WITHIN t → (WITHIN t (P [1"alpha"]))
(beta WITHIN p) WITHIN q → (WITHIN q (WITHIN p (P [2"beta"])))
(one WITHIN p) WITHIN q → (WITHIN q (WITHIN p (P [2"one"])))
alpha WITHIN z → (WITHIN z (P [1"alpha"]))
(alpha WITHIN t) WITHIN q → (WITHIN q (WITHIN t (P [2"alpha"])))
NEAR((a,b),0) → (NEAR 0 false {(P [7"a"])} {(P [9"b"])})
NEAR((a,b),1) → (NEAR 1 false {(P [7"a"])} {(P [9"b"])})
NEAR((b,a),1,TRUE) → (NEAR 1 true {(P [7"b"])} {(P [9"a"])})
a ; b → (NEAR 100 false {(P [1"a"])} {(P [5"b"])})
BT(dog,5,th) → (BT 5 th 4"dog")
BT(dog,1,nope) → (BT 1 nope 4"dog")
SYN(dog) → (SYN 1 default 5"dog")
SYN(hub,th) → (SYN 1 th 5"hub")
caf% → (P [1"caf%"])
% → (P [1"%"])
red AND 12 → (AND (P [1"red"]) (P [9"12"]))
(red AND 12) WITHIN SENTENCE → (WITHIN sentence (AND (P [2"red"]) (P [10"12"])))
lamp WITHIN name → (WITHIN name (P [1"lamp"]))
lamp > 1 → (ABOVE 1 (P [1"lamp"]))
web\-site → (P [1"web-site"])
{web-site} → (P [1"web-site"])
web\-site = shop → (P [1"web-site" 13"shop"])
shop = web site → (P [1"shop" 8"web"] [12"site"])
DEFINESCORE(quick, OCCURRENCE * 10 + 5) → (DEFINE {(P [13"quick"])} OCCURRENCE 10 * 5 +)
DEFINESCORE(quick, DISCRETE * 10 + 5) → (DEFINE {(P [13"quick"])} DISCRETE 10 * 5 +)
DEFINESCORE(quick, DISCRETE) → (DEFINE {(P [13"quick"])} DISCRETE)
DEFINESCORE(quick, 0 - 5) → (DEFINE {(P [13"quick"])} 0 5 -)
quick > 1 → (ABOVE 1 (P [1"quick"]))
quick > 2 → (ABOVE 2 (P [1"quick"]))
quick > 1 AND fox → (AND (ABOVE 1 (P [1"quick"])) (P [15"fox"]))
⟨4000 a⟩ → (P [1"⟨4000 a⟩"])
quick*0 → E22 7
NEAR((a,b),101) → E22 12
fuzzy(x) → E21 1
a,b → E21 2
(a → E20 3
a) → E20 2
⟨4001 a⟩ → E26
DEFINESCORE(quick, COMPLETION) → E21 20
 → E20 1

# escapes, braces and wildcards
\\ → (P [1"\\"])
a\ b → (P [1"a b"])
a\_b_ → (P [1"a\_b_"])
\AND → (P [1"AND"])
{a}b{c} → (P [1"abc"])
{a}}b} → (P [1"a}b"])
{a}}} → (P [1"a}"])
{} → (P [1""])
{\} → (P [1"\\"])
\é → (P [1"é"])
{a⟨U+000A⟩b} → (P [1"a\nb"])
"a" → (P [1"\"a\""])
a{b}% → (P [1"ab%"])
a⟨U+0009⟩b⟨U+000A⟩c⟨U+000D⟩ → (P [1"a"] [3"b"] [5"c"])
a⟨U+00A0⟩b⟨U+0085⟩c⟨U+3000⟩d⟨U+2028⟩e → (P [1"a"] [4"b"] [7"c"] [11"d"] [15"e"])
a=%b=_ → (P [1"a" 3"%b" 6"_"])
a⟨U+200B⟩b⟨U+001C⟩c → (P [1"a⟨U+200B⟩b⟨U+001C⟩c"])
⟨2  ⟩a⟨2  ⟩ → (P [3"a"])
{a → E20 1
a} → E20 2
a\ → E20 2
{a}} → E20 1
a {b} } → E20 7
{{a}} → E20 1
⟨U+00A0⟩ → E20 3

# characters of several bytes
日本語 ) → E20 11
⟨U+1F600⟩,a → E21 5
a⟨U+3000⟩AND AND → E20 9
NEAR((é,ü),101) → E22 14
SYN(ñandú,ñ) → E20 13
é ñ=ü 日本 → (P [1"é"] [4"ñ" 7"ü"] [10"日本"])

# 4000 bytes, and one more
⟨2000 é⟩ → (P [1"⟨2000 é⟩"])
⟨3999  ⟩a → (P [4000"a"])
⟨2000 é⟩a → E26
⟨4000  ⟩ → E20 4001

# 1024 lexemes, and one more
⟨1025 a ⟩ → E26
a⟨512 *1⟩ → E26
⟨1024 ,⟩ → E21 1
⟨1023 a ⟩) → E20 2047
⟨1024 a ⟩) → E26
⟨1024 }⟩ → E20 1

# 32 open parentheses, and one more
⟨32 (⟩a⟨32 )⟩ → (P [33"a"])
⟨31 (⟩SYN(a)⟨31 )⟩ → (SYN 1 default 36"a")
⟨30 (⟩NEAR((a,b))⟨30 )⟩ → (NEAR 100 false {(P [37"a"])} {(P [39"b"])})
⟨33 \(⟩ → (P [1"⟨33 (⟩"])
⟨33 (⟩a⟨33 )⟩ → E26
⟨32 (⟩ → E20 33
⟨31 (⟩NEAR((a,b))⟨31 )⟩ → E26
⟨32 (⟩SYN(a)⟨32 )⟩ → E26
⟨40 ()⟩ → E20 2
"#;
