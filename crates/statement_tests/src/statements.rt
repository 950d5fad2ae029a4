//! Texts and what is read from them.

use ct_base::Memory;
use st_parse::{Arg, Procedure, Statement, StatementFault, Whole, is_blank, parse};
use std::alloc::Global;
use std::test::Fail;

/// What is asked of a text: its statement's one argument, no statement, or a fault.
type Asked = Result<Option<&'static str>, StatementFault>;

const NONE: Asked = Ok(None);

const SYNTAX: Asked = Err(StatementFault::Syntax);

const TEXTS: &[(&str, Asked)] = &[
    // white space and comments
    ("", NONE),
    ("  -- note\n", NONE),
    (" -- a 'note\n\t--", NONE),
    ("--", NONE),
    ("\u{b}\u{c}\u{85}\u{a0}\u{3000}\r\n", NONE),
    // one statement
    (
        "exec\n CTX_DOC . Policy_Tokens ( 'some text' ) -- done",
        Ok(Some("some text")),
    ),
    ("eXeCuTe ctx_doc.policy_tokens('')", Ok(Some(""))),
    (
        "EXEC ctx_doc.policy_tokens('it''s ''''')",
        Ok(Some("it's ''")),
    ),
    (
        "EXEC ctx_doc.policy_tokens('Grün 猫 🦀')",
        Ok(Some("Grün 猫 🦀")),
    ),
    (
        "-- it's; \"a\" note;\nEXEC ctx_doc.policy_tokens('a' -- ')\n)--",
        Ok(Some("a")),
    ),
    (
        "EXEC\u{b}ctx_doc\u{85}.\u{a0}policy_tokens\u{3000}('a')\u{2003}",
        Ok(Some("a")),
    ),
    // other numbers and kinds of arguments
    ("EXECUTE ctx_doc.sync_index('a', 'b')", SYNTAX),
    ("EXEC ctx_doc.policy_tokens('a' 'b')", SYNTAX),
    ("EXEC ctx_doc.policy_tokens(a)", SYNTAX),
    // other names, words and signs
    ("EXEC ctx_docs.policy_tokens('a')", SYNTAX),
    ("EXEC ctx_doc.policy_token('a')", SYNTAX),
    ("EXEC policy_tokens('a')", SYNTAX),
    ("EXECUTES ctx_doc.policy_tokens('a')", SYNTAX),
    ("ctx_doc.policy_tokens('a')", SYNTAX),
    ("EXEC ctx_doc.policy_tokens('a'", SYNTAX),
    ("EXEC ctx_doc.policy_tokens('a') x", SYNTAX),
    ("EXEC ctx_doc.policy_tokens('a') -", SYNTAX),
    ("SELEC", SYNTAX),
    // no lexemes
    ("%", SYNTAX),
    ("x 'it''", SYNTAX),
    ("EXEC ctx_doc.policy_tokens('a)", SYNTAX),
    ("EXEC ctx_doc.policy_tokens('a');", SYNTAX),
    ("EXEC\u{200b}ctx_doc.policy_tokens('a')", SYNTAX),
    ("\u{1c}", SYNTAX),
    ("a234567890123456789012345678901", SYNTAX),
];

/// A text, and the words that its statement begins with where it is one.
const FORMS: &[(&str, Option<&str>)] = &[
    (
        "CREATE TABLE t (id NUMBER PRIMARY KEY)",
        Some("create table"),
    ),
    (
        "create table T(a number primary key, b varchar2 ( 10 ), c clob primary key, d number)",
        Some("create table"),
    ),
    (
        "CREATE TABLE a23456789012345678901234567890 (id NUMBER PRIMARY KEY)",
        Some("create table"),
    ),
    (
        "CREATE TABLE a234567890123456789012345678901 (id NUMBER PRIMARY KEY)",
        None,
    ),
    ("CREATE TABLE t ()", None),
    ("CREATE TABLE t (id NUMBER,)", None),
    ("CREATE TABLE t (id NUMBER PRIMARY)", None),
    ("CREATE TABLE t (id NUMBER KEY)", None),
    ("CREATE TABLE t (id VARCHAR2)", None),
    ("CREATE TABLE t (id VARCHAR2(-5))", None),
    ("CREATE TABLE t (id NUMBER(5))", None),
    ("CREATE TABLE t id NUMBER", None),
    ("CREATE TABLE t (id NUMBER", None),
    ("CREATE TABLE t (id NUMBER) t", None),
    ("CREATE TABLE table (id NUMBER)", None),
    ("CREATE TABLE t (key NUMBER)", None),
    (
        "CREATE INDEX i ON t(c) INDEXTYPE IS CONTEXT",
        Some("create index"),
    ),
    (
        "CREATE INDEX i ON t(c) INDEXTYPE IS CTXSYS . CONTEXT",
        Some("create index"),
    ),
    ("CREATE INDEX i ON t(c) INDEXTYPE IS CTXSYS CONTEXT", None),
    (
        "CREATE INDEX i ON t(c) INDEXTYPE IS CTXSYS.CTXRULE",
        Some("create index"),
    ),
    (
        "CREATE INDEX i ON t(c) INDEXTYPE IS CTXCAT",
        Some("create index"),
    ),
    (
        "CREATE INDEX i ON t(c) INDEXTYPE IS Ctxsys.Ctxcat PARAMETERS ('INDEX SET s')",
        Some("create index"),
    ),
    (
        "CREATE INDEX i ON t(c) INDEXTYPE IS CTXSYS.CTXSYS.CTXCAT",
        None,
    ),
    (
        "CREATE INDEX i ON t(c) INDEXTYPE IS CONTEXT PARAMETERS ('')",
        Some("create index"),
    ),
    (
        "CREATE INDEX i ON t(c) INDEXTYPE IS CONTEXT PARAMETERS (lexer)",
        None,
    ),
    (
        "CREATE INDEX i ON t(c) INDEXTYPE IS CONTEXT PARAMETERS ('') PARAMETERS ('')",
        None,
    ),
    (
        "CREATE INDEX i ON t(c) INDEXTYPE IS CONTEXT PARALLEL 2",
        Some("create index"),
    ),
    (
        "CREATE INDEX i ON t(c) INDEXTYPE IS CTXRULE PARAMETERS ('') PARALLEL 0",
        Some("create index"),
    ),
    (
        "CREATE INDEX i ON t(c) INDEXTYPE IS CONTEXT PARALLEL 2 PARAMETERS ('')",
        None,
    ),
    (
        "CREATE INDEX i ON t(c) INDEXTYPE IS CONTEXT PARALLEL -2",
        None,
    ),
    ("CREATE INDEX i ON t(c) INDEXTYPE IS CONTEXT PARALLEL", None),
    ("CREATE INDEX i ON t(c, d) INDEXTYPE IS CONTEXT", None),
    ("CREATE INDEX i ON t(c)", None),
    ("SELECT id FROM t WHERE a>=1AND b<=-12", Some("select")),
    ("SELECT id FROM t WHERE a> =1", None),
    ("UPDATE t SET a$_#='b'", Some("update")),
    ("INSERT INTO t VALUES (1)", Some("insert")),
    ("INSERT INTO t (a,b,c) VALUES (- 1,'x',002)", Some("insert")),
    ("INSERT INTO t () VALUES (1)", None),
    ("INSERT INTO t (a b) VALUES (1)", None),
    ("INSERT INTO t (a) (1)", None),
    ("INSERT INTO t VALUES ()", None),
    ("INSERT INTO t VALUES (a)", None),
    ("INSERT INTO t VALUES (- -5)", None),
    ("INSERT INTO t VALUES (-'x')", None),
    ("INSERT INTO t VALUES (TRUE)", None),
    ("INSERT INTO t VALUES (NULL)", None),
    ("INSERT INTO t VALUES (1), (2)", None),
    ("SELECT a FROM t WHERE CONTAINS(b,'x') > 0", Some("select")),
    (
        "SELECT SCORE(2), a, SCORE(2) FROM t WHERE CONTAINS(b,'x',2) > 50",
        Some("select"),
    ),
    ("SELECT * FROM t WHERE CONTAINS(b,'x') > 0", Some("select")),
    (
        "SELECT Count ( * ) FROM t WHERE CONTAINS(b,'x') > 0",
        Some("select"),
    ),
    ("SELECT *, a FROM t", None),
    ("SELECT a, * FROM t", None),
    ("SELECT COUNT(a) FROM t", None),
    ("SELECT COUNT(*), a FROM t", None),
    ("SELECT SCORE(-1) FROM t WHERE CONTAINS(b,'x',1) > 0", None),
    ("SELECT a FROM t WHERE CONTAINS(b,'x') > -1", None),
    ("SELECT a FROM t WHERE CONTAINS(b,'x') >= 0", None),
    ("SELECT a FROM t WHERE CONTAINS(b,'x','y') > 0", None),
    ("SELECT a FROM t WHERE CONTAINS(b,c) > 0", None),
    (
        "SELECT a FROM t WHERE CONTAINS(b,'x') > 0 AND a = 1",
        Some("select"),
    ),
    (
        "SELECT a FROM t WHERE a = 1 AND CONTAINS(b,'x',1) > 0 AND b <> 2",
        None,
    ),
    (
        "SELECT a FROM t WHERE a = 1 AND CONTAINS(b,'x',1) > 0 AND b > 2",
        Some("select"),
    ),
    (
        "SELECT a FROM t WHERE CONTAINS(b,'x') > 0 AND CONTAINS(b,'y') > 0",
        None,
    ),
    (
        "SELECT a FROM t WHERE CONTAINS(b,'x') > 0, CONTAINS(b,'y') > 0",
        None,
    ),
    (
        "SELECT a FROM t WHERE CATSEARCH(b,'x',NULL) > 0",
        Some("select"),
    ),
    (
        "SELECT a FROM t WHERE a = 1 AND CatSearch ( b , '' , 'c > 1' ) > 00",
        Some("select"),
    ),
    ("SELECT a FROM t WHERE CATSEARCH(b,'x',NULL) > 1", None),
    ("SELECT a FROM t WHERE CATSEARCH(b,'x',NULL) > -0", None),
    ("SELECT a FROM t WHERE CATSEARCH(b,'x',NULL) >= 0", None),
    ("SELECT a FROM t WHERE CATSEARCH(b,'x') > 0", None),
    ("SELECT a FROM t WHERE CATSEARCH(b,'x',1) > 0", None),
    ("SELECT a FROM t WHERE CATSEARCH(b,NULL,'x') > 0", None),
    ("SELECT a FROM t WHERE CATSEARCH(b,'x',NULL,1) > 0", None),
    (
        "SELECT a FROM t WHERE CATSEARCH(b,'x',NULL) > 0 AND CONTAINS(b,'x') > 0",
        None,
    ),
    (
        "SELECT a FROM t WHERE MATCHES(b,'x') > 0 AND a = 1",
        Some("select"),
    ),
    ("SELECT a FROM t WHERE MATCHES(b,'x') > 00", Some("select")),
    ("SELECT a FROM t WHERE MATCHES(b,'x') > 1", None),
    ("SELECT a FROM t WHERE MATCHES(b,'x',1) > 0", None),
    ("SELECT a FROM t WHERE MATCHES('b','x') > 0", None),
    (
        "SELECT a FROM t WHERE MATCHES(b,'x') > 0 AND CONTAINS(b,'x') > 0",
        None,
    ),
    (
        "SELECT a FROM t WHERE CONTAINS(b,'x',1) > 0 ORDER BY Score ( 1 ) DESC, a",
        Some("select"),
    ),
    (
        "SELECT COUNT(*) FROM t ORDER BY a, b asc, c desc",
        Some("select"),
    ),
    ("SELECT a FROM t ORDER BY", None),
    ("SELECT a FROM t ORDER a", None),
    ("SELECT a FROM t BY a", None),
    ("SELECT a FROM t ORDER BY a,", None),
    ("SELECT a FROM t ORDER BY a b", None),
    ("SELECT a FROM t ORDER BY a ASC DESC", None),
    ("SELECT a FROM t ORDER BY DESC a", None),
    ("SELECT a FROM t ORDER BY a AND b", None),
    ("SELECT a FROM t ORDER BY 1", None),
    ("SELECT a FROM t ORDER BY SCORE", None),
    ("SELECT a FROM t ORDER BY COUNT(*)", None),
    ("SELECT a FROM t ORDER BY a WHERE a = 1", None),
    ("SELECT a FROM t WHERE ORDER BY a", None),
    ("SELECT a FROM t WHERE a = 1 AND ORDER BY a", None),
    ("SELECT a FROM t ORDER BY a ORDER BY b", None),
    ("DELETE FROM t ORDER BY a", None),
    ("UPDATE t SET a = 1 ORDER BY a", None),
    ("SELECT a FROM t", Some("select")),
    ("SELECT a FROM t WHERE", None),
    ("SELECT a FROM t WHERE a = 1 AND", None),
    ("SELECT a FROM t WHERE a = 1, b = 2", None),
    ("SELECT a FROM t a = 1", None),
    ("SELECT a FROM t WHERE a = 'x'", Some("select")),
    ("SELECT a FROM t WHERE a < 1", Some("select")),
    ("SELECT a FROM t WHERE a <= 1", Some("select")),
    ("SELECT a FROM t WHERE a > -1", Some("select")),
    ("SELECT a FROM t WHERE a >= - 1", Some("select")),
    ("SELECT a FROM t WHERE a < = 1", None),
    ("SELECT a FROM t WHERE a = b", None),
    ("SELECT a FROM t WHERE 1 = a", None),
    ("SELECT a FROM t WHERE a - 1", None),
    ("SELECT a FROM t WHERE a = NULL", None),
    ("SELECT a FROM t WHERE a BETWEEN 1 AND 2", Some("select")),
    (
        "SELECT a FROM t WHERE a BETWEEN 1 AND 2 AND b BETWEEN 'x' AND 'y' AND c = 3",
        Some("select"),
    ),
    ("SELECT a FROM t WHERE a BETWEEN 1 AND b = 3", None),
    ("SELECT a FROM t WHERE a BETWEEN 1 AND 2 AND 3", None),
    ("SELECT a FROM t WHERE a BETWEEN 1, 2", None),
    ("SELECT a FROM t WHERE a IN (1)", Some("select")),
    (
        "SELECT a FROM t WHERE a IN (1, -2, 'x') AND b = 1",
        Some("select"),
    ),
    ("SELECT a FROM t WHERE a IN ()", None),
    ("SELECT a FROM t WHERE a IN (1", None),
    ("SELECT a FROM t WHERE a IN (1,)", None),
    ("SELECT a FROM t WHERE a IN 1", None),
    ("DROP TABLE t", Some("drop table")),
    ("drop index I", Some("drop index")),
    ("DROP t", None),
    ("DROP TABLE t, u", None),
    ("DROP INDEX i ON t", None),
    ("UPDATE t SET a = 1", Some("update")),
    (
        "UPDATE t SET a = -1, b = 'x' WHERE c BETWEEN 1 AND 2 AND d = 'y'",
        Some("update"),
    ),
    ("UPDATE t SET a = 1 AND b = 2", None),
    ("UPDATE t SET a = 1,", None),
    ("UPDATE t SET a > 1", None),
    ("UPDATE t SET", None),
    ("UPDATE t SET a = 1 WHERE CONTAINS(b,'x') > 0", None),
    ("UPDATE t a = 1", None),
    ("DELETE FROM t", Some("delete")),
    ("DELETE t", Some("delete")),
    ("DELETE FROM t WHERE a = 1 AND b IN (1, 2)", Some("delete")),
    ("DELETE t WHERE a = 1", Some("delete")),
    ("DELETE FROM", None),
    ("DELETE FROM t WHERE", None),
    ("DELETE FROM t a = 1", None),
    ("DELETE * FROM t", None),
    ("COMMIT", Some("commit")),
    ("COMMIT t", None),
];

/// Calls of procedures, and what they are; None where the text is no statement.
const CALLS: &[(&str, Option<&str>)] = &[
    ("EXEC ctx_doc.policy_tokens()", Some("exec")),
    ("EXEC ctx_doc.policy_tokens(5)", Some("exec")),
    (
        "EXEC ctx_doc.policy_tokens('a', -2, TRUE, false)",
        Some("exec"),
    ),
    ("EXEC ctx_ddl.sync_index()", Some("exec")),
    ("EXECUTE Ctx_Ddl.Sync_Index('i', '10M')", Some("exec")),
    ("EXEC ctx_ddl.sync_index('i', i)", None),
    ("EXEC ctx_ddl.sync_index('i', NULL)", None),
    ("EXEC ctx_ddl.sync_index", None),
    ("EXEC ctx_ddl.optimize_index('i', 'FULL')", Some("exec")),
    (
        "EXECUTE Ctx_Ddl.Optimize_Index('i', 'FULL', 1000)",
        Some("exec"),
    ),
    ("EXEC ctx_ddl.optimize_index('i', FULL)", None),
    ("EXEC ctx_doc.optimize_index('i', 'FULL')", None),
    ("EXECUTE ctx_doc.policy_tokens('a', 'b')", Some("exec")),
    (
        "EXEC ctx_ddl.add_field_section('g', 't', 'T', TRUE)",
        Some("exec"),
    ),
    ("EXEC Ctx_Ddl.Create_Index_Set('s')", Some("exec")),
    ("EXEC ctx_ddl.add_index('s', 'a, b')", Some("exec")),
    ("EXEC ctx_ddl.add_index('s', a)", None),
    ("EXEC ctx_ddl.drop_index_set('s')", None),
    ("EXEC Ctx_Query.Result_Set('i', 'q', 'count')", Some("exec")),
    ("EXEC ctx_query.result_set('i', q, 'count')", None),
    ("EXEC ctx_ddl.result_set('i', 'q', 'count')", None),
    ("EXEC Ctx_Thes.Create_Thesaurus('t', FALSE)", Some("exec")),
    ("EXEC ctx_thes.create_thesaurus()", Some("exec")),
    (
        "EXEC ctx_thes.create_relation('t', 'a', 'BT', 'b')",
        Some("exec"),
    ),
    ("EXEC ctx_thes.create_relation('t', 'a', BT, 'b')", None),
    ("EXEC ctx_thes.drop_thesaurus('t')", None),
    ("EXEC ctx_ddl.create_thesaurus('t')", None),
    ("EXEC ctx_ddl.drop_stoplist('sl')", None),
    ("EXEC ctx_ddl.policy_tokens('a')", None),
    ("EXEC ctx_doc.sync_index('i')", None),
];

/// A number, and what is read of it.
const NUMBERS: &[(&str, Whole)] = &[
    ("0", Whole::Fits(0)),
    ("-0", Whole::Fits(0)),
    ("- 007", Whole::Fits(-7)),
    ("9223372036854775807", Whole::Fits(i64::MAX)),
    ("0009223372036854775808", Whole::Beyond),
    ("-9223372036854775808", Whole::Fits(i64::MIN)),
    ("-9223372036854775809", Whole::Beyond),
    ("18446744073709551617", Whole::Beyond),
    ("-100000000000000000000000000000", Whole::Beyond),
];

/// The argument of a call of `ctx_doc.policy_tokens`.
fn argument(statement: &Statement) -> Option<&str> {
    let Statement::Exec { procedure, args } = statement else {
        return None;
    };
    if *procedure != Procedure::PolicyTokens {
        return None;
    }
    match args.as_slice() {
        [Arg::Text(text)] => Some(text.as_str()),
        _ => None,
    }
}

fn has_argument(statement: &Statement, want: Asked) -> bool {
    match want {
        Ok(Some(text)) => argument(statement) == Some(text),
        _ => false,
    }
}

/// Whether this is what a text gives.
fn gives(alloc: Global, text: &str, want: Asked) -> bool {
    match parse(alloc, text) {
        Ok(Some(statement)) => has_argument(&statement, want),
        Ok(None) => want == NONE,
        Err(fault) => want == Err(fault),
    }
}

#[test]
fn reads_statements(rt: HostRuntime) {
    for (text, want) in TEXTS {
        assert!(rt; gives(rt.alloc(), text, *want), "{text:?}");
    }
}

#[test]
fn tells_texts_without_a_statement(rt: HostRuntime) {
    for (text, want) in TEXTS {
        assert!(rt; is_blank(text) == (*want == NONE), "{text:?}");
    }
}

/// The words that a statement begins with.
fn first_words(statement: &Statement) -> &'static str {
    match statement {
        Statement::CreateTable { .. } => "create table",
        Statement::DropTable { .. } => "drop table",
        Statement::DropIndex { .. } => "drop index",
        Statement::CreateIndex { .. } => "create index",
        Statement::Insert { .. } => "insert",
        Statement::Update { .. } => "update",
        Statement::Delete { .. } => "delete",
        Statement::Select { .. } => "select",
        Statement::Exec { .. } => "exec",
        Statement::Commit => "commit",
    }
}

/// The words that the statement of a text begins with; None where the text breaks the grammar.
fn words_of(alloc: Global, text: &str) -> Option<&'static str> {
    match parse(alloc, text) {
        Ok(Some(statement)) => Some(first_words(&statement)),
        Ok(None) => Some("no statement"),
        Err(StatementFault::Syntax) => None,
        Err(_) => Some("another fault"),
    }
}

#[test]
fn tells_statements(rt: HostRuntime) {
    for (text, want) in FORMS {
        assert!(rt; words_of(rt.alloc(), text) == *want, "{text:?}");
    }
}

#[test]
fn tells_calls(rt: HostRuntime) {
    for (text, want) in CALLS {
        assert!(rt; words_of(rt.alloc(), text) == *want, "{text:?}");
    }
}

/// The number that is the one argument of a call.
fn numeral(statement: &Statement) -> Option<Whole> {
    let Statement::Exec { args, .. } = statement else {
        return None;
    };
    match args.as_slice() {
        [Arg::Number(number)] => Some(*number),
        _ => None,
    }
}

/// The number that is read of digits as the one argument of a call.
fn number_of(alloc: Global, digits: &str) -> Result<Option<Whole>, Memory> {
    let text = format!(in alloc; "EXEC ctx_ddl.sync_index({digits})")?;
    match parse(alloc, text.as_str()) {
        Ok(Some(statement)) => Ok(numeral(&statement)),
        _ => Ok(None),
    }
}

#[test]
fn reads_numbers(rt: HostRuntime) -> Result<(), Fail> {
    for (digits, want) in NUMBERS {
        assert!(rt; number_of(rt.alloc(), digits)? == Some(*want), "{digits}");
    }
    Ok(())
}
