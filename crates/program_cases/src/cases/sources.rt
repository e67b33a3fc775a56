// Sources that are refused, and the limits on sources. Expected lines are those of the statuses.
use crate::cases::calling::check_run;
use std::alloc::{AllocError, Global};
use std::test::Fail;

/// Sources, and what standard error is told of each.
static REFUSALS: [(&str, &str); 12] = [
    // A place that begins no token.
    (
        "print(9223372036854775808)",
        "luaris: source refused at line 1\n",
    ),
    ("print(1/2)", "luaris: source refused at line 1\n"),
    ("print(1)\n\n  $", "luaris: source refused at line 3\n"),
    (
        "print(1) local = 2\n$",
        "luaris: source refused at line 2\n",
    ),
    // A token that cannot stand where it does, or the end of the source.
    ("print(1) local = 2", "luaris: source refused at line 1\n"),
    ("print(1", "luaris: source refused at line 1\n"),
    ("print(1\n\n", "luaris: source refused at line 3\n"),
    ("local x = 1\nx = = 2", "luaris: source refused at line 2\n"),
    ("for\ni\n=\n1 do end", "luaris: source refused at line 4\n"),
    ("print(1 +\n)", "luaris: source refused at line 2\n"),
    ("x = 1\n2\n3", "luaris: source refused at line 2\n"),
    ("goto\nx y", "luaris: source refused at line 2\n"),
];

#[test]
fn other_sources_are_refused(rt: HostRuntime) -> Result<(), Fail> {
    for (source, told) in REFUSALS.iter().copied() {
        check_run(&rt, rt.alloc(), source.as_bytes(), b"", (5, b"", told))?;
    }
    Ok(())
}

/// So many lines `local x = 1`, and then a print of an expression with so many numerals, each sum within the one before.
fn nested(alloc: Global, locals: usize, sums: usize) -> Result<Vec<u8>, AllocError> {
    let mut source = Vec::new(alloc);
    for _ in 0..locals {
        source.extend_from_slice(b"local x = 1\n")?;
    }
    source.extend_from_slice(b"print(")?;
    for _ in 0..sums {
        source.extend_from_slice(b"1+(")?;
    }
    source.extend_from_slice(b"1")?;
    source.extend_from_slice(vec![in alloc; b')'; sums]?.as_slice())?;
    source.extend_from_slice(b")")?;
    Ok(source)
}

/// A print of a numeral in so many brackets.
fn bracketed(alloc: Global, depth: usize) -> Result<Vec<u8>, AllocError> {
    let mut source = Vec::from_slice(alloc, b"print(")?;
    source.extend_from_slice(vec![in alloc; b'('; depth]?.as_slice())?;
    source.extend_from_slice(b"1")?;
    source.extend_from_slice(vec![in alloc; b')'; depth]?.as_slice())?;
    source.extend_from_slice(b")")?;
    Ok(source)
}

/// A source at a limit or past it.
#[derive(Clone, Copy)]
enum Shape {
    /// So many blanks.
    Blanks(usize),
    /// A numeral in so many brackets.
    Brackets(usize),
    /// So many lines that declare a variable, and so many sums.
    Nested(usize, usize),
}

fn source_of(alloc: Global, shape: Shape) -> Result<Vec<u8>, AllocError> {
    match shape {
        Shape::Blanks(count) => vec![in alloc; b' '; count],
        Shape::Brackets(depth) => bracketed(alloc, depth),
        Shape::Nested(locals, sums) => nested(alloc, locals, sums),
    }
}

/// Sources within a limit, and what each prints.
static WITHIN: [(Shape, &str); 5] = [
    (Shape::Blanks(1_048_576), "return\n"),
    (Shape::Brackets(399), "1\nreturn\n"),
    (Shape::Nested(0, 199), "200\nreturn\n"),
    (Shape::Nested(49, 199), "200\nreturn\n"),
    (Shape::Nested(200, 48), "49\nreturn\n"),
];

/// Sources past a limit, and what is told of each.
static PAST: [(Shape, &str); 5] = [
    (
        Shape::Blanks(1_048_577),
        "luaris: source refused by rule 13 at line 1\n",
    ),
    (Shape::Brackets(400), "luaris: source refused at line 1\n"),
    (Shape::Nested(0, 200), "luaris: source refused at line 1\n"),
    (
        Shape::Nested(50, 199),
        "luaris: source refused by rule 11 at line 51\n",
    ),
    (
        Shape::Nested(201, 0),
        "luaris: source refused by rule 9 at line 201\n",
    ),
];

#[test]
fn limits_are_where_they_are_said_to_be(rt: HostRuntime) -> Result<(), Fail> {
    let alloc = rt.alloc();
    for (shape, printed) in WITHIN.iter().copied() {
        let source = source_of(alloc, shape)?;
        let wanted = (0, printed.as_bytes(), "");
        check_run(&rt, alloc, source.as_slice(), b"", wanted)?;
    }
    for (shape, told) in PAST.iter().copied() {
        let source = source_of(alloc, shape)?;
        check_run(&rt, alloc, source.as_slice(), b"", (5, b"", told))?;
    }
    Ok(())
}
