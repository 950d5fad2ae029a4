//! Functions, and the words and signs that are refused.

/// One row on each line; the head of `tests.rt` says how they are written.
pub(crate) static ROWS: &str = r#"
# functions beside operators
NEAR((a,b)) AND DEFINESCORE(a,5) → (AND (NEAR 100 false {(P [7"a"])} {(P [9"b"])}) (DEFINE {(P [29"a"])} 5))
NEAR((a,b)) > 3 * .5 WITHIN s & DEFINESCORE(a,5)*1 → (AND (WITHIN s (W 5 (ABOVE 3 (NEAR 100 false {(P [7"a"])} {(P [9"b"])})))) (W 10 (DEFINE {(P [45"a"])} 5)))
DEFINESCORE(a,5)~SYN(a) → (NOT (DEFINE {(P [13"a"])} 5) (SYN 1 default 22"a"))
SYN(a)-PT(b) → (MINUS (SYN 1 default 5"a") (PT 1 default 11"b"))
NEAR((a,b));c → E20 12
c = NEAR((a,b)) → E20 5
c NT(a) → E20 3
c NEAR((a,b)) → E21 10
SYN(a);PT(b) ; BT(c);NT(d) → (NEAR 100 false {(SYN 1 default 5"a")} {(PT 1 default 11"b")} {(BT 1 default 19"c")} {(NT 1 default 25"d")})
(SYN(a)|PT(b));c d → (NEAR 100 false {(SYN 1 default 6"a") (PT 1 default 12"b")} {(P [16"c"] [18"d"])})

# NEAR as a function
NEAR((a,b)) → (NEAR 100 false {(P [7"a"])} {(P [9"b"])})
NEAR((a,b),100) → (NEAR 100 false {(P [7"a"])} {(P [9"b"])})
NEAR((a,b),007) → (NEAR 7 false {(P [7"a"])} {(P [9"b"])})
NEAR((a,b),5,true) → (NEAR 5 true {(P [7"a"])} {(P [9"b"])})
NEAR((a b,c=d e)) → (NEAR 100 false {(P [7"a"] [9"b"])} {(P [11"c" 13"d"] [15"e"])})
NEAR((a OR b,c|d|e)) → (NEAR 100 false {(P [7"a"]) (P [12"b"])} {(P [14"c"]) (P [16"d"]) (P [18"e"])})
;((a,b),5) → (NEAR 5 false {(P [4"a"])} {(P [6"b"])})
near ( ( a , b ) , 5 , TRUE ) → (NEAR 5 true {(P [10"a"])} {(P [14"b"])})
NEAR((a,b),x) → E22 12
NEAR((a,b),5,x) → E20 14
NEAR(a,b) → E20 6
NEAR((a,b),5,TRUE,1) → E21 18
NEAR((,a)) → E21 7

# sixteen operands of a nearness, and one more
⟨15 a;⟩a → (NEAR 100 false {(P [1"a"])} {(P [3"a"])} {(P [5"a"])} {(P [7"a"])} {(P [9"a"])} {(P [11"a"])} {(P [13"a"])} {(P [15"a"])} {(P [17"a"])} {(P [19"a"])} {(P [21"a"])} {(P [23"a"])} {(P [25"a"])} {(P [27"a"])} {(P [29"a"])} {(P [31"a"])})
NEAR((⟨15 a,⟩a)) → (NEAR 100 false {(P [7"a"])} {(P [9"a"])} {(P [11"a"])} {(P [13"a"])} {(P [15"a"])} {(P [17"a"])} {(P [19"a"])} {(P [21"a"])} {(P [23"a"])} {(P [25"a"])} {(P [27"a"])} {(P [29"a"])} {(P [31"a"])} {(P [33"a"])} {(P [35"a"])} {(P [37"a"])})
⟨16 a;⟩a → E22 32
NEAR((⟨16 a,⟩a)) → E22 38
⟨15 é;⟩é;a → E22 48

# DEFINESCORE
DEFINESCORE(a,1000) → (DEFINE {(P [13"a"])} 1000)
DEFINESCORE(a,(1 + 2)*3) → (DEFINE {(P [13"a"])} 1 2 + 3 *)
DEFINESCORE(a,1-(2-3)) → (DEFINE {(P [13"a"])} 1 2 3 - -)
DEFINESCORE(a,1 + 2*3-4) → (DEFINE {(P [13"a"])} 1 2 3 * + 4 -)
definescore(a, Discrete*occurrence) → (DEFINE {(P [13"a"])} DISCRETE OCCURRENCE *)
DEFINESCORE(a OR b c,5) → (DEFINE {(P [13"a"]) (P [18"b"] [20"c"])} 5)
DEFINESCORE(SYN(a,th)|b,5) → (DEFINE {(SYN 1 th 17"a") (P [23"b"])} 5)
DEFINESCORE(ignore,5) → (DEFINE {(P [13"ignore"])} 5)
DEFINESCORE(+,5) → (DEFINE {(P [13"+"])} 5)
DEFINESCORE(a,1001) → E22 15
DEFINESCORE(a,1+1) → E22 15
DEFINESCORE(a,5 MINUS 3) → E20 17
DEFINESCORE(a,5 +3) → E20 17
DEFINESCORE(a,5,6) → E21 16
DEFINESCORE(a,5.0) → E22 15
DEFINESCORE(NEAR((a,b)),5) → E20 13

# words that a sum refuses
DEFINESCORE(a,IGNORE) → E21 15
DEFINESCORE(a, 5 ignore 3) → E21 18
DEFINESCORE(a,{IGNORE}) → E20 15
completion relevance → (P [1"completion"] [12"relevance"])

# eight operators of a sum, and one more
DEFINESCORE(a,⟨8 1*⟩1) → (DEFINE {(P [13"a"])} 1 1 * 1 * 1 * 1 * 1 * 1 * 1 * 1 *)
DEFINESCORE(a,(1-1)*⟨3 (1 + 1)-⟩1) → (DEFINE {(P [13"a"])} 1 1 - 1 1 + * 1 1 + - 1 1 + - 1 -)
DEFINESCORE(a,⟨9 1 + ⟩1) → E22 49
DEFINESCORE(a,⟨8 1*⟩1 MINUS 1) → E20 33
DEFINESCORE(a,⟨8 1*⟩1,2 → E21 32
DEFINESCORE(a,⟨8 1*⟩(1 + 2)) → E22 34

# the operators of a thesaurus
SYN(a) → (SYN 1 default 5"a")
PT(a b,th) → (PT 1 th 4"a" 6"b")
BT(a,2) → (BT 2 default 4"a")
NT(a,TH) → (NT 1 th 4"a")
BT(a,99) → (BT 99 default 4"a")
SYN({a%b}) → (SYN 1 default 5"a\%b")
BT(new\ york {city},3,geo#1) → (BT 3 geo#1 4"new york" 14"city")
SYN(a,⟨30 x⟩) → (SYN 1 ⟨30 x⟩ 5"a")
SYN(a,5) → E20 7
BT(a,1,2) → E20 8
BT(a,0) → E22 6
BT(a,100) → E22 6
SYN(a,⟨31 x⟩) → E20 7
BT(a,⟨31 x⟩) → E22 6

# names of functions as words
syn → (P [1"syn"])
bt nt pt → (P [1"bt"] [4"nt"] [7"pt"])
about a → (P [1"about"] [7"a"])
rt tt tr trsyn btg btp bti ntg ntp nti → (P [1"rt"] [4"tt"] [7"tr"] [10"trsyn"] [16"btg"] [20"btp"] [24"bti"] [28"ntg"] [32"ntp"] [36"nti"])
haspath inpath mdata sdata ndata sqe → (P [1"haspath"] [9"inpath"] [16"mdata"] [22"sdata"] [28"ndata"] [34"sqe"])
SYN{}(a) → E20 6
\SYN(a) → E20 5
{about}(a) → E20 8

# functions, words and signs that are refused
ABOUT(a) → E21 1
FUZZY(a) → E21 1
HASPATH(a) → E21 1
INPATH(a) → E21 1
MDATA(a) → E21 1
SDATA(a) → E21 1
NDATA(a) → E21 1
SQE(a) → E21 1
RT(a) → E21 1
TT(a) → E21 1
TR(a) → E21 1
TRSYN(a) → E21 1
BTG(a) → E21 1
BTP(a) → E21 1
BTI(a) → E21 1
NTG(a) → E21 1
NTP(a) → E21 1
NTI(a) → E21 1
a accum b → E21 3
a[b → E21 2
?a → E21 1
a$ → E21 2
(a] → E21 3
AND accum → E20 1
a AND fuzzy(b) → E21 7
accumulate → (P [1"accumulate"])
a\,b → (P [1"a,b"])
\?\!\$\[\] → (P [1"?!$[]"])
"#;
