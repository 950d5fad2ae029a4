//! Operators between queries, parentheses, and what stands behind an operator.

/// One row on each line; the head of `tests.rt` says how they are written.
pub(crate) static ROWS: &str = r#"
# each operator before each other one: in one order with blanks, in the other without
a&b&c → (AND (AND (P [1"a"]) (P [3"b"])) (P [5"c"]))
a AND b OR c → (OR (AND (P [1"a"]) (P [7"b"])) (P [12"c"]))
a AND b NOT c → (AND (P [1"a"]) (NOT (P [7"b"]) (P [13"c"])))
a AND b MINUS c → (AND (P [1"a"]) (MINUS (P [7"b"]) (P [15"c"])))
a AND b EQUIV c → (AND (P [1"a"]) (P [7"b" 15"c"]))
a AND b ; c → (AND (P [1"a"]) (NEAR 100 false {(P [7"b"])} {(P [11"c"])}))
a AND b * 2 → (AND (P [1"a"]) (W 20 (P [7"b"])))
a AND b > 3 → (AND (P [1"a"]) (ABOVE 3 (P [7"b"])))
a AND b WITHIN s → (AND (P [1"a"]) (WITHIN s (P [7"b"])))
a AND b c → (AND (P [1"a"]) (P [7"b"] [9"c"]))
a|b&c → (OR (P [1"a"]) (AND (P [3"b"]) (P [5"c"])))
a|b|c → (OR (OR (P [1"a"]) (P [3"b"])) (P [5"c"]))
a OR b NOT c → (OR (P [1"a"]) (NOT (P [6"b"]) (P [12"c"])))
a OR b MINUS c → (OR (P [1"a"]) (MINUS (P [6"b"]) (P [14"c"])))
a OR b EQUIV c → (OR (P [1"a"]) (P [6"b" 14"c"]))
a OR b ; c → (OR (P [1"a"]) (NEAR 100 false {(P [6"b"])} {(P [10"c"])}))
a OR b * 2 → (OR (P [1"a"]) (W 20 (P [6"b"])))
a OR b > 3 → (OR (P [1"a"]) (ABOVE 3 (P [6"b"])))
a OR b WITHIN s → (OR (P [1"a"]) (WITHIN s (P [6"b"])))
a OR b c → (OR (P [1"a"]) (P [6"b"] [8"c"]))
a~b&c → (AND (NOT (P [1"a"]) (P [3"b"])) (P [5"c"]))
a~b|c → (OR (NOT (P [1"a"]) (P [3"b"])) (P [5"c"]))
a~b~c → (NOT (NOT (P [1"a"]) (P [3"b"])) (P [5"c"]))
a NOT b MINUS c → (NOT (P [1"a"]) (MINUS (P [7"b"]) (P [15"c"])))
a NOT b EQUIV c → (NOT (P [1"a"]) (P [7"b" 15"c"]))
a NOT b ; c → (NOT (P [1"a"]) (NEAR 100 false {(P [7"b"])} {(P [11"c"])}))
a NOT b * 2 → (NOT (P [1"a"]) (W 20 (P [7"b"])))
a NOT b > 3 → (NOT (P [1"a"]) (ABOVE 3 (P [7"b"])))
a NOT b WITHIN s → (WITHIN s (NOT (P [1"a"]) (P [7"b"])))
a NOT b c → (NOT (P [1"a"]) (P [7"b"] [9"c"]))
a-b&c → (AND (MINUS (P [1"a"]) (P [3"b"])) (P [5"c"]))
a-b|c → (OR (MINUS (P [1"a"]) (P [3"b"])) (P [5"c"]))
a-b~c → (NOT (MINUS (P [1"a"]) (P [3"b"])) (P [5"c"]))
a-b-c → (MINUS (MINUS (P [1"a"]) (P [3"b"])) (P [5"c"]))
a MINUS b EQUIV c → (MINUS (P [1"a"]) (P [9"b" 17"c"]))
a MINUS b ; c → (MINUS (P [1"a"]) (NEAR 100 false {(P [9"b"])} {(P [13"c"])}))
a MINUS b * 2 → (MINUS (P [1"a"]) (W 20 (P [9"b"])))
a MINUS b > 3 → (MINUS (P [1"a"]) (ABOVE 3 (P [9"b"])))
a MINUS b WITHIN s → (WITHIN s (MINUS (P [1"a"]) (P [9"b"])))
a MINUS b c → (MINUS (P [1"a"]) (P [9"b"] [11"c"]))
a=b&c → (AND (P [1"a" 3"b"]) (P [5"c"]))
a=b|c → (OR (P [1"a" 3"b"]) (P [5"c"]))
a=b~c → (NOT (P [1"a" 3"b"]) (P [5"c"]))
a=b-c → (MINUS (P [1"a" 3"b"]) (P [5"c"]))
a=b=c → (P [1"a" 3"b" 5"c"])
a EQUIV b ; c → (NEAR 100 false {(P [1"a" 9"b"])} {(P [13"c"])})
a EQUIV b * 2 → (W 20 (P [1"a" 9"b"]))
a EQUIV b > 3 → (ABOVE 3 (P [1"a" 9"b"]))
a EQUIV b WITHIN s → (WITHIN s (P [1"a" 9"b"]))
a EQUIV b c → (P [1"a" 9"b"] [11"c"])
a;b&c → (AND (NEAR 100 false {(P [1"a"])} {(P [3"b"])}) (P [5"c"]))
a;b|c → (OR (NEAR 100 false {(P [1"a"])} {(P [3"b"])}) (P [5"c"]))
a;b~c → (NOT (NEAR 100 false {(P [1"a"])} {(P [3"b"])}) (P [5"c"]))
a;b-c → (MINUS (NEAR 100 false {(P [1"a"])} {(P [3"b"])}) (P [5"c"]))
a;b=c → (NEAR 100 false {(P [1"a"])} {(P [3"b" 5"c"])})
a;b;c → (NEAR 100 false {(P [1"a"])} {(P [3"b"])} {(P [5"c"])})
a ; b * 2 → (W 20 (NEAR 100 false {(P [1"a"])} {(P [5"b"])}))
a ; b > 3 → (ABOVE 3 (NEAR 100 false {(P [1"a"])} {(P [5"b"])}))
a ; b WITHIN s → (WITHIN s (NEAR 100 false {(P [1"a"])} {(P [5"b"])}))
a ; b c → (NEAR 100 false {(P [1"a"])} {(P [5"b"] [7"c"])})
a*2&c → (AND (W 20 (P [1"a"])) (P [5"c"]))
a*2|c → (OR (W 20 (P [1"a"])) (P [5"c"]))
a*2~c → (NOT (W 20 (P [1"a"])) (P [5"c"]))
a*2-c → (MINUS (W 20 (P [1"a"])) (P [5"c"]))
a*2=c → E20 4
a*2;c → E20 4
a*2*2 → (W 20 (W 20 (P [1"a"])))
a * 2 > 3 → (ABOVE 3 (W 20 (P [1"a"])))
a * 2 WITHIN s → (WITHIN s (W 20 (P [1"a"])))
a * 2 c → E20 7
a>3&c → (AND (ABOVE 3 (P [1"a"])) (P [5"c"]))
a>3|c → (OR (ABOVE 3 (P [1"a"])) (P [5"c"]))
a>3~c → (NOT (ABOVE 3 (P [1"a"])) (P [5"c"]))
a>3-c → (MINUS (ABOVE 3 (P [1"a"])) (P [5"c"]))
a>3=c → E20 4
a>3;c → E20 4
a>3*2 → (W 20 (ABOVE 3 (P [1"a"])))
a>3>3 → (ABOVE 3 (ABOVE 3 (P [1"a"])))
a > 3 WITHIN s → (WITHIN s (ABOVE 3 (P [1"a"])))
a > 3 c → E20 7
a WITHIN s&c → (AND (WITHIN s (P [1"a"])) (P [12"c"]))
a WITHIN s|c → (OR (WITHIN s (P [1"a"])) (P [12"c"]))
a WITHIN s~c → E20 11
a WITHIN s-c → E20 11
a WITHIN s=c → E20 11
a WITHIN s;c → E20 11
a WITHIN s*2 → E20 11
a WITHIN s>3 → E20 11
a WITHIN s WITHIN s → (WITHIN s (WITHIN s (P [1"a"])))
a WITHIN s c → E20 12
a b&c → (AND (P [1"a"] [3"b"]) (P [5"c"]))
a b|c → (OR (P [1"a"] [3"b"]) (P [5"c"]))
a b~c → (NOT (P [1"a"] [3"b"]) (P [5"c"]))
a b-c → (MINUS (P [1"a"] [3"b"]) (P [5"c"]))
a b=c → (P [1"a"] [3"b" 5"c"])
a b;c → (NEAR 100 false {(P [1"a"] [3"b"])} {(P [5"c"])})
a b*2 → (W 20 (P [1"a"] [3"b"]))
a b>3 → (ABOVE 3 (P [1"a"] [3"b"]))
a b WITHIN s → (WITHIN s (P [1"a"] [3"b"]))
a b c → (P [1"a"] [3"b"] [5"c"])

# signs beside the words of operators, in any case
a|b OR c → (OR (OR (P [1"a"]) (P [3"b"])) (P [8"c"]))
a-b MINUS c → (MINUS (MINUS (P [1"a"]) (P [3"b"])) (P [11"c"]))
a;b NEAR c → (NEAR 100 false {(P [1"a"])} {(P [3"b"])} {(P [10"c"])})
a and b or c → (OR (AND (P [1"a"]) (P [7"b"])) (P [12"c"]))
android oregano nothing minuses nearby → (P [1"android"] [9"oregano"] [17"nothing"] [25"minuses"] [33"nearby"])
a.b/c:d'e"f@g^h → (P [1"a.b/c:d'e\"f@g^h"])
a AND b OR c AND d NOT e MINUS f*2>1 WITHIN s → (OR (AND (P [1"a"]) (P [7"b"])) (AND (P [12"c"]) (WITHIN s (NOT (P [18"d"]) (MINUS (P [24"e"]) (ABOVE 1 (W 20 (P [32"f"]))))))))
a*1*2>3>4*5 → (W 50 (ABOVE 4 (ABOVE 3 (W 20 (W 10 (P [1"a"]))))))
a b c=d e=f=g → (P [1"a"] [3"b"] [5"c" 7"d"] [9"e" 11"f" 13"g"])
a b;c=d e → (NEAR 100 false {(P [1"a"] [3"b"])} {(P [5"c" 7"d"] [9"e"])})

# operators without a query before or behind them
AND → E20 1
a AND → E20 6
a - - b → E20 5
NOT a → E20 1
a==b → E20 3
a;;b → E20 3
*2 → E20 1

# parentheses
(a OR b) AND c → (AND (OR (P [2"a"]) (P [7"b"])) (P [14"c"]))
(a OR b);c → (NEAR 100 false {(P [2"a"]) (P [7"b"])} {(P [10"c"])})
(a);(b) → (NEAR 100 false {(P [2"a"])} {(P [6"b"])})
(((a)|b)|(c|d));e → (NEAR 100 false {(P [4"a"]) (P [7"b"]) (P [11"c"]) (P [13"d"])} {(P [17"e"])})
(NEAR((a,b))) → (NEAR 100 false {(P [8"a"])} {(P [10"b"])})
() → E20 2
) → E20 1
(a)) → E20 4
a (b) → E20 3
(a AND b);c → E20 10
(a)=b → E20 4

# weights and thresholds
a>100 → (ABOVE 100 (P [1"a"]))
a>0 → (ABOVE 0 (P [1"a"]))
a > 00100 → (ABOVE 100 (P [1"a"]))
a*0.1 → (W 1 (P [1"a"]))
a*10.0 → (W 100 (P [1"a"]))
a*.5 → (W 5 (P [1"a"]))
2*2 → (W 20 (P [1"2"]))
a>101 → E22 3
a>1.0 → E22 3
a> → E20 3
a*10.1 → E22 3
a*1.55 → E22 3
a**2 → E20 3
a*⟨U+0663⟩ → E22 3
a*1,5 → E21 4
a*(2) → E20 3
a > syn(b) → E20 5

# the names behind WITHIN
a WITHIN Title → (WITHIN title (P [1"a"]))
a WITHIN s#1 → (WITHIN s#1 (P [1"a"]))
a WITHIN about → (WITHIN about (P [1"a"]))
a WITHIN ⟨30 X⟩ → (WITHIN ⟨30 x⟩ (P [1"a"]))
a WITHIN s% → E20 10
a WITHIN s$1 → E21 11
a WITHIN ⟨31 x⟩ → E20 10
a WITHIN → E20 9
a WITHIN é → E20 10
"#;
