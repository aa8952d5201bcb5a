//! The statements of texts, with the blanks and comments around them.

use crate::assert_same;
use rdl_parse::parse::parse;
use rdl_source::span::Span;
use rdl_source::statement::{Statement, Statements};
use std::alloc::{AllocError, Global};
use std::test::Fail;

fn push_span(into: &mut String, text: &str, span: Span) -> Result<(), AllocError> {
    into.push_str(text.get(span.from..span.to).unwrap_or("?"))
}

fn push_line(into: &mut String, text: &str, mark: &str, span: Span) -> Result<(), AllocError> {
    into.push_str(mark)?;
    into.push_str("[")?;
    push_span(into, text, span)?;
    into.push_str("]")
}

#[cycle(shown)]
fn push_statement(
    into: &mut String,
    text: &str,
    statement: &Statement,
    levels: u32,
) -> Result<(), AllocError> {
    if levels == 0 {
        return Ok(());
    }
    push_line(into, text, "F", statement.float)?;
    push_line(into, text, "L", statement.lead)?;
    match &statement.inside {
        None => push_line(into, text, "W", statement.words)?,
        Some(inner) => {
            let head = Span {
                from: statement.words.from,
                to: inner.open,
            };
            push_line(into, text, "H", head)?;
            push_statements(into, text, &inner.body, levels - 1)?;
            let tail = Span {
                from: inner.close,
                to: statement.words.to,
            };
            push_line(into, text, "C", tail)?;
        }
    }
    let count = format!(in *into.allocator(); "{}", statement.items)?;
    into.push_str(&count)?;
    push_line(into, text, "T", statement.trail)
}

#[cycle(shown)]
fn push_statements(
    into: &mut String,
    text: &str,
    statements: &Statements,
    levels: u32,
) -> Result<(), AllocError> {
    for statement in statements.as_slice() {
        push_statement(into, text, statement, levels)?;
    }
    push_line(into, text, "E", statements.last())
}

/// The statements of a text: float, lead, words or head and body and tail, how many items, trail; at the end what is last.
fn shown(alloc: Global, text: &str) -> Result<String, &'static str> {
    let Ok((_, places)) = parse(alloc, text) else {
        return Err("spells nothing");
    };
    let Ok(words) = rdl_text::tokens(alloc, text) else {
        return Err("no words");
    };
    let Ok(Some(statements)) = Statements::of(alloc, text, &words, places.as_slice()) else {
        return Err("no statements");
    };
    let mut found = String::new(alloc);
    match push_statements(&mut found, text, &statements, 17) {
        Ok(()) => Ok(found),
        Err(_) => Err("no memory"),
    }
}

/// Texts, and their statements.
const SHOWN: [(&str, &str); 24] = [
    ("", "E[]"),
    ("// only\n\n", "E[// only\n\n]"),
    // A licence with a blank line below it floats.
    (
        "// (c)\n\n// of t\nt a;",
        "F[// (c)\n\n]L[// of t\n]W[t a;]1T[]E[]",
    ),
    // Directly above a statement it is the statement's.
    ("// of t\nt a;\n", "F[]L[// of t\n]W[t a;]1T[\n]E[]"),
    // The rest of the line is the trail.
    (
        "t a; // of a\n  // of b\n  t b;\n",
        "F[]L[]W[t a;]1T[ // of a\n]F[]L[  // of b\n  ]W[t b;]1T[\n]E[]",
    ),
    // Between two blank lines stands what floats.
    (
        "t a;\n\n// title\n\n// of b\nt b;",
        "F[]L[]W[t a;]1T[\n]F[\n// title\n\n]L[// of b\n]W[t b;]1T[]E[]",
    ),
    // Two statements on one line.
    (
        "t a; /* of b */ t b; // of b\n",
        "F[]L[]W[t a;]1T[]F[]L[ /* of b */ ]W[t b;]1T[ // of b\n]E[]",
    ),
    // Behind a brace the rest of the line is the head's.
    (
        "reg {// of reg\n  field {} f; // of f\n\n  // last\n} r;",
        "F[]L[]H[reg {// of reg\n]F[]L[  ]H[field {]E[]C[} f;]1T[ // of f\n]E[\n  // last\n]C[} r;]1T[]E[]",
    ),
    // A body on one line.
    (
        "reg { field {} a; /* of a */ } r;",
        "F[]L[]H[reg {]F[]L[ ]H[field {]E[]C[} a;]1T[ /* of a */]E[ ]C[} r;]1T[]E[]",
    ),
    (
        "reg { /* none */ } r;",
        "F[]L[]H[reg { /* none */]E[ ]C[} r;]1T[]E[]",
    ),
    (
        "reg {\n  // none\n} r;",
        "F[]L[]H[reg {\n]E[  // none\n]C[} r;]1T[]E[]",
    ),
    (
        "reg { /* a */ field {} f; } r;",
        "F[]L[]H[reg {]F[]L[ /* a */ ]H[field {]E[]C[} f;]1T[]E[ ]C[} r;]1T[]E[]",
    ),
    // A comment at the end without a line feed.
    ("t a; // of a", "F[]L[]W[t a;]1T[ // of a]E[]"),
    ("t a;  ", "F[]L[]W[t a;]1T[]E[  ]"),
    ("t a;\n// last", "F[]L[]W[t a;]1T[\n]E[// last]"),
    // Carriage returns are blanks.
    (
        "// (c)\r\n\r\nt a; // of a\r\n\r\nt b;\r\n",
        "F[// (c)\r\n\r\n]L[]W[t a;]1T[ // of a\r\n]F[\r\n]L[]W[t b;]1T[\r\n]E[]",
    ),
    // Line feeds in comments don't count.
    (
        "t a; /* of\n\n a */\n/* of\n\n b */\nt b;",
        "F[]L[]W[t a;]1T[ /* of\n\n a */\n]F[]L[/* of\n\n b */\n]W[t b;]1T[]E[]",
    ),
    (
        "t a; /* x\n */ t b;",
        "F[]L[]W[t a;]1T[]F[]L[ /* x\n */ ]W[t b;]1T[]E[]",
    ),
    // No comment begins in a string, and no statement ends there.
    (
        "desc = \"//;{\"; name = \"/*\"; // x\n",
        "F[]L[]W[desc = \"//;{\";]1T[]F[]L[ ]W[name = \"/*\";]1T[ // x\n]E[]",
    ),
    // Comments between the words are the words'.
    (
        "t /* a; */ a; t b;",
        "F[]L[]W[t /* a; */ a;]1T[]F[]L[ ]W[t b;]1T[]E[]",
    ),
    // Several instances are one statement.
    ("t a, b[2], c;", "F[]L[]W[t a, b[2], c;]3T[]E[]"),
    (
        "reg { field {} f; } a, b; t c;",
        "F[]L[]H[reg {]F[]L[ ]H[field {]E[]C[} f;]1T[]E[ ]C[} a, b;]2T[]F[]L[ ]W[t c;]1T[]E[]",
    ),
    (
        "reg R { field {} f, g; } a, b;",
        "F[]L[]H[reg R {]F[]L[ ]H[field {]E[]C[} f, g;]2T[]E[ ]C[} a, b;]3T[]E[]",
    ),
    (
        "reg R {};\n\n\nR a @ 0x10;\na.f->reset = 1;",
        "F[]L[]H[reg R {]E[]C[};]1T[\n]F[\n\n]L[]W[R a @ 0x10;]1T[\n]F[]L[]W[a.f->reset = 1;]1T[]E[]",
    ),
];

fn shown_texts() -> &'static [(&'static str, &'static str)] {
    &SHOWN
}

#[test]
fn shows_each_part(rt: HostRuntime) -> Result<(), Fail> {
    for (text, wanted) in shown_texts() {
        assert_same(&rt, shown(rt.alloc(), text)?.as_str(), wanted, text);
    }
    Ok(())
}
