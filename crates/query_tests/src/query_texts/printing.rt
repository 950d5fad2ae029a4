//! Queries and faults in one line. A line is one of these, with one blank between parts:
//!
//! - `E20 3`, `E21 3` and `E22 3`: the text breaks the grammar at this place, has something that this profile doesn't have, or has a
//!   number in no form or out of its range; `E26`: the text is too large
//! - `(P [..] [..])`: a phrase, and in each bracket the words of which one may stand there
//! - `(SYN 1 default ..)`, likewise PT, BT and NT: the level, the thesaurus and the words
//! - `(AND a b)`, `(OR a b)`, `(NOT a b)`, `(MINUS a b)`: two queries
//! - `(W 25 a)`: a weight, in tenths; `(ABOVE 5 a)`: what the score has to be above; `(WITHIN s a)`: in a section
//! - `(NEAR 100 false {..} {..})`: the span, whether the order counts, and the operands, each with its phrases
//! - `(DEFINE {..} 1 OCCURRENCE +)`: the operand, and the sum in postfix form
//!
//! A word is `7"dog%"`: its place, and its pieces in quotation marks, with `_` for one character and `%` for any. Where these two signs, a quotation
//! mark or a backslash are characters of a word, a backslash stands before them; a newline, a return and a tab are `\n`, `\r` and `\t`.

use ct_base::{Listed, Memory};
use q_parse::{QueryFault, parse};
use q_tree::{Leaf, Query, Relation, SumStep, Word, WordBit, WordSlot};
use std::alloc::Global;

/// What the text gives: its tree, or its fault.
pub(crate) fn answer(alloc: Global, text: &str) -> Result<String, Memory> {
    let mut out = String::new(alloc);
    match parse(alloc, text) {
        Ok(query) => put_query(alloc, &mut out, &query)?,
        Err(fault) => put_fault(alloc, &mut out, &fault)?,
    }
    Ok(out)
}

/// The name of a fault, and its place, 0 where it has none.
fn fault_parts(fault: &QueryFault) -> (&'static str, u32) {
    match fault {
        QueryFault::Syntax(place) => ("E20", *place),
        QueryFault::NotInProfile(place) => ("E21", *place),
        QueryFault::BadNumber(place) => ("E22", *place),
        QueryFault::TooLarge => ("E26", 0),
        QueryFault::Memory => ("no memory", 0),
    }
}

fn put_fault(alloc: Global, out: &mut String, fault: &QueryFault) -> Result<(), Memory> {
    let (name, place) = fault_parts(fault);
    put_place(alloc, out, name, place)
}

/// The name of a fault, and the place that it has, where that isn't 0.
pub(crate) fn put_place(
    alloc: Global,
    out: &mut String,
    name: &str,
    place: u32,
) -> Result<(), Memory> {
    out.push_str(name)?;
    if place > 0 {
        let place = format!(in alloc; " {place}")?;
        out.push_str(place.as_str())?;
    }
    Ok(())
}

/// Its cost is linear in the size of the tree, and it goes as deep.
pub(crate) fn put_query(alloc: Global, out: &mut String, query: &Query) -> Result<(), Memory> {
    match query {
        Query::Leaf(leaf) => return put_leaf(alloc, out, leaf),
        Query::And(a, b) | Query::Or(a, b) | Query::Not(a, b) | Query::Minus(a, b) => {
            put_head(alloc, out, query)?;
            put_query(alloc, out, a)?;
            out.push(' ')?;
            put_query(alloc, out, b)?;
        }
        Query::Weight(_, a) | Query::Above(_, a) | Query::Within(_, a) => {
            put_head(alloc, out, query)?;
            put_query(alloc, out, a)?;
        }
        Query::Near { operands, .. } => {
            put_head(alloc, out, query)?;
            put_operands(alloc, out, operands.as_slice())?;
        }
        Query::Define(operand, steps) => {
            put_head(alloc, out, query)?;
            put_operand(alloc, out, operand.as_slice())?;
            put_steps(alloc, out, steps.as_slice())?;
        }
    }
    out.push(')')?;
    Ok(())
}

/// What stands before the parts of a query that is no leaf, up to the first number or name.
fn head_word(query: &Query) -> &'static str {
    match query {
        Query::Leaf(_) => "",
        Query::And(_, _) => "(AND ",
        Query::Or(_, _) => "(OR ",
        Query::Not(_, _) => "(NOT ",
        Query::Minus(_, _) => "(MINUS ",
        Query::Weight(_, _) => "(W ",
        Query::Above(_, _) => "(ABOVE ",
        Query::Near { .. } => "(NEAR ",
        Query::Within(_, _) => "(WITHIN ",
        Query::Define(_, _) => "(DEFINE ",
    }
}

/// The numbers and names of a query itself.
fn head_rest(alloc: Global, query: &Query) -> Result<String, Memory> {
    let rest = match query {
        Query::Weight(tenths, _) => format!(in alloc; "{tenths} ")?,
        Query::Above(number, _) => format!(in alloc; "{number} ")?,
        Query::Near { span, ordered, .. } => format!(in alloc; "{span} {ordered}")?,
        Query::Within(name, _) => {
            let name = name.as_str();
            format!(in alloc; "{name} ")?
        }
        _ => String::new(alloc),
    };
    Ok(rest)
}

/// What stands before the parts of a query that is no leaf.
fn put_head(alloc: Global, out: &mut String, query: &Query) -> Result<(), Memory> {
    let rest = head_rest(alloc, query)?;
    out.push_str(head_word(query))?;
    out.push_str(rest.as_str())?;
    Ok(())
}

fn put_operands(alloc: Global, out: &mut String, operands: &[Listed<Leaf>]) -> Result<(), Memory> {
    for operand in operands {
        out.push(' ')?;
        put_operand(alloc, out, operand.as_slice())?;
    }
    Ok(())
}

fn put_operand(alloc: Global, out: &mut String, leaves: &[Leaf]) -> Result<(), Memory> {
    let mut before = '{';
    for leaf in leaves {
        out.push(before)?;
        put_leaf(alloc, out, leaf)?;
        before = ' ';
    }
    out.push('}')?;
    Ok(())
}

/// A step that is no number.
fn step_word(step: &SumStep) -> &'static str {
    match step {
        SumStep::Number(_) => " ",
        SumStep::Discrete => " DISCRETE",
        SumStep::Occurrence => " OCCURRENCE",
        SumStep::Plus => " +",
        SumStep::Minus => " -",
        SumStep::Times => " *",
    }
}

fn put_steps(alloc: Global, out: &mut String, steps: &[SumStep]) -> Result<(), Memory> {
    for step in steps {
        out.push_str(step_word(step))?;
        if let SumStep::Number(number) = step {
            let number = format!(in alloc; "{number}")?;
            out.push_str(number.as_str())?;
        }
    }
    Ok(())
}

fn put_leaf(alloc: Global, out: &mut String, leaf: &Leaf) -> Result<(), Memory> {
    match leaf {
        Leaf::Phrase(slots) => {
            out.push_str("(P")?;
            put_slots(alloc, out, slots.as_slice())?;
        }
        Leaf::Thes {
            relation,
            words,
            level,
            thesaurus,
        } => {
            let relation = relation_name(*relation);
            let thesaurus = thesaurus.as_str();
            let head = format!(in alloc; "({relation} {level} {thesaurus} ")?;
            out.push_str(head.as_str())?;
            put_words(alloc, out, words.as_slice())?;
        }
    }
    out.push(')')?;
    Ok(())
}

fn relation_name(relation: Relation) -> &'static str {
    match relation {
        Relation::Syn => "SYN",
        Relation::Broader => "BT",
        Relation::Narrower => "NT",
        Relation::Preferred => "PT",
    }
}

fn put_slots(alloc: Global, out: &mut String, slots: &[WordSlot]) -> Result<(), Memory> {
    for slot in slots {
        out.push_str(" [")?;
        put_words(alloc, out, slot.as_slice())?;
        out.push(']')?;
    }
    Ok(())
}

/// The words, with a blank between two.
fn put_words(alloc: Global, out: &mut String, words: &[Word]) -> Result<(), Memory> {
    let mut between = "";
    for word in words {
        out.push_str(between)?;
        put_word(alloc, out, word)?;
        between = " ";
    }
    Ok(())
}

fn put_word(alloc: Global, out: &mut String, word: &Word) -> Result<(), Memory> {
    let place = word.place;
    let head = format!(in alloc; "{place}\"")?;
    out.push_str(head.as_str())?;
    for bit in word.bits.as_slice() {
        match bit {
            WordBit::Chars(text) => put_chars(out, text.as_str())?,
            WordBit::One => out.push('_')?,
            WordBit::Many => out.push('%')?,
        }
    }
    out.push('"')?;
    Ok(())
}

/// How a character is written that is written otherwise than by itself.
fn escaped(c: char) -> Option<&'static str> {
    match c {
        '\n' => Some("\\n"),
        '\r' => Some("\\r"),
        '\t' => Some("\\t"),
        '\\' => Some("\\\\"),
        '"' => Some("\\\""),
        '_' => Some("\\_"),
        '%' => Some("\\%"),
        _ => None,
    }
}

/// The characters of a word, with a backslash before those that would be read as signs.
fn put_chars(out: &mut String, text: &str) -> Result<(), Memory> {
    for c in text.chars() {
        match escaped(c) {
            Some(text) => out.push_str(text)?,
            None => out.push(c)?,
        }
    }
    Ok(())
}
