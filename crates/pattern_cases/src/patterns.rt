// Patterns against subjects, with results that section 6.4.1 of the Lua 5.4 manual gives.
use lua_pattern::{Capture, Match, PatternFault, find_at};
use std::alloc::{AllocError, Global};
use std::test::Fail;

/// Subject, pattern, place and result: the end, and each capture as `start-end` or `@place`.
static MATCHES: [(&str, &str, usize, &str); 89] = [
    // Single bytes, and nothing at all.
    ("hello", "", 0, "0"),
    ("hello", "", 5, "5"),
    ("", "", 0, "0"),
    ("hello", "l", 0, "none"),
    ("hello", "l", 2, "3"),
    ("hello", "lo", 4, "none"),
    ("hello", "h.l", 0, "3"),
    ("", ".", 0, "none"),
    ("a.c", "a%.c", 0, "3"),
    ("abc", "a%.c", 0, "none"),
    ("100%", "%%", 3, "4"),
    ("a(b", "a%(b", 0, "3"),
    // Classes and their complements.
    ("x1", "%a%d", 0, "2"),
    ("_", "%a", 0, "none"),
    ("_", "%p", 0, "1"),
    ("a", "%p", 0, "none"),
    ("\u{e9}", "%a", 0, "none"),
    ("\u{e9}", "%A%W", 0, "2"),
    (" \t\n\u{b}\u{c}\r.", "%s+", 0, "6"),
    ("\u{7f}\n", "%c%c", 0, "2"),
    (" ", "%g", 0, "none"),
    ("~!", "%g%g", 0, "2"),
    ("aZ9_", "%w*", 0, "3"),
    ("dEF0g", "%x+", 0, "4"),
    ("aB", "%l%u", 0, "2"),
    ("aB", "%u", 0, "none"),
    ("a1", "%D%L", 0, "2"),
    ("1", "%D", 0, "none"),
    // Sets.
    ("b", "[abc]", 0, "1"),
    ("d", "[abc]", 0, "none"),
    ("d", "[^abc]", 0, "1"),
    ("a", "[a-z]", 0, "1"),
    ("z", "[a-z]", 0, "1"),
    ("{", "[a-z]", 0, "none"),
    ("-", "[a-]", 0, "1"),
    ("-", "[-a]", 0, "1"),
    ("b", "[a-]", 0, "none"),
    ("]", "[]]", 0, "1"),
    ("]", "[^]]", 0, "none"),
    ("x", "[^]]", 0, "1"),
    ("7", "[%a%d]", 0, "1"),
    ("_", "[%w_]", 0, "1"),
    ("]", "[%]]", 0, "1"),
    ("8", "[^%D]", 0, "1"),
    // Quantifiers.
    ("aaab", "a*", 0, "3"),
    ("aaab", "a*a", 0, "3"),
    ("aaab", "a+b", 0, "4"),
    ("b", "a+b", 0, "none"),
    ("b", "a*b", 0, "1"),
    ("aaab", "a-", 0, "0"),
    ("aaab", "a-b", 0, "4"),
    ("ab", "a?b", 0, "2"),
    ("b", "a?b", 0, "1"),
    ("aab", "a?b", 0, "none"),
    ("aab", "a?a?b", 0, "3"),
    ("xabcabc", ".*c", 1, "7"),
    ("xabcabc", ".-c", 1, "4"),
    ("[tag] [x]", "%[.-%]", 0, "5"),
    ("abc", "[a-c]*c", 0, "3"),
    // Captures.
    ("key=val", "(%w+)=(%w+)", 0, "7 0-3 4-7"),
    ("flaaap", "()aa()", 2, "4 @2 @4"),
    ("abcd", "((a)(b))c", 0, "3 0-2 0-1 1-2"),
    ("abcd", "(a*(.)%w(%s*))", 0, "3 0-3 1-2 3-3"),
    ("aXb", "(a)(X?)(y?)b", 0, "3 0-1 1-2 2-2"),
    ("aaa", "(a-)a$", 0, "3 0-2"),
    ("aa", "(a*)(a*)", 0, "2 0-2 2-2"),
    ("aab", "(a*)(ab)", 0, "3 0-1 1-3"),
    // References.
    ("'it'", "(['\"]).-%1", 0, "4 0-1"),
    ("\"it's\"", "(['\"]).-%1", 0, "6 0-1"),
    ("abab", "(ab)%1", 0, "4 0-2"),
    ("abac", "(ab)%1", 0, "none"),
    ("ab", "(ab)%1", 0, "none"),
    ("aaaa", "(a+)%1", 0, "4 0-2"),
    ("xyyx", "(x)(y)%2%1", 0, "4 0-1 1-2"),
    // Balanced texts.
    ("f(a(b)c)d", "%b()", 1, "8"),
    ("((a)", "%b()", 0, "none"),
    (")(", "%b()", 0, "none"),
    ("|a|b|", "%b||", 0, "3"),
    // Frontiers.
    ("THE (quick) fox", "%f[%a]%a+", 0, "3"),
    ("THE (quick) fox", "%f[%a]%a+", 1, "none"),
    ("THE (quick) fox", "%f[%a]%a+", 5, "10"),
    ("word", "%w+%f[%W]", 0, "4"),
    // The end.
    ("ab", "b$", 1, "2"),
    ("abc", "b$", 1, "none"),
    ("ab", "(b)$", 1, "2 1-2"),
    ("", "$", 0, "0"),
    ("a$b", "a$b", 0, "3"),
    ("$", "$$", 0, "1"),
    ("a$", "(a$)", 0, "2 0-2"),
];

/// Patterns that are refused whatever the subject is, each with the number of its rule.
static REFUSALS: [(&str, &str); 26] = [
    ("%", "rule 1"),
    ("a%", "rule 1"),
    ("(a%", "rule 1"),
    ("[a", "rule 2"),
    ("[", "rule 2"),
    ("[]", "rule 2"),
    ("[^]", "rule 2"),
    ("[a%]", "rule 2"),
    ("%f[a", "rule 2"),
    ("%b", "rule 3"),
    ("%b(", "rule 3"),
    ("%f", "rule 4"),
    ("%fa", "rule 4"),
    (")", "rule 5"),
    ("(a))", "rule 5"),
    ("a)(", "rule 5"),
    ("(", "rule 6"),
    ("(a", "rule 6"),
    ("((a)", "rule 6"),
    ("(()", "rule 6"),
    ("%0", "rule 8"),
    ("%1", "rule 8"),
    ("(a%1)", "rule 8"),
    ("(a)%2", "rule 8"),
    ("(a)%1[", "rule 2"),
    ("%1[", "rule 8"),
];

#[test]
fn matches_are_those_of_the_manual(rt: HostRuntime) -> Result<(), Fail> {
    for (subject, pattern, at, want) in MATCHES.iter().copied() {
        assert!(rt; at <= subject.len());
        let answer = find_at(rt.alloc(), subject.as_bytes(), pattern.as_bytes(), at);
        let told = text_of(rt.alloc(), &answer)?;
        assert_eq!(rt; told.as_str(), want, "{pattern} at {at} of {subject}");
    }
    Ok(())
}

#[test]
fn a_pattern_is_refused_by_the_first_rule_that_it_breaks(rt: HostRuntime) -> Result<(), Fail> {
    for (pattern, want) in REFUSALS.iter().copied() {
        let answer = find_at(rt.alloc(), b"", pattern.as_bytes(), 0);
        let told = text_of(rt.alloc(), &answer)?;
        assert_eq!(rt; told.as_str(), want, "{pattern}");
    }
    Ok(())
}

#[test]
fn captures_and_quantifiers_have_limits(rt: HostRuntime) -> Result<(), Fail> {
    // So many captures, quantifiers and closing brackets.
    for (captures, quantifiers, closing, want) in [
        (33, 0, 0, "rule 7"),
        (33, 300, 1, "rule 7"),
        (0, 200, 0, "0"),
        (0, 201, 0, "too complex"),
        (0, 201, 1, "rule 5"),
        (32, 169, 0, "too complex"),
        (2, 198, 0, "0 @0 @0"),
    ] {
        let mut pattern = Vec::new(rt.alloc());
        for (part, count) in [(b"()", captures), (b"a?", quantifiers)] {
            for _ in 0..count {
                pattern.extend_from_slice(part)?;
            }
        }
        for _ in 0..closing {
            pattern.push(b')')?;
        }
        let answer = find_at(rt.alloc(), b"", &pattern, 0);
        let told = text_of(rt.alloc(), &answer)?;
        assert_eq!(rt; told.as_str(), want, "{captures} and {quantifiers}");
    }
    Ok(())
}

/// An answer as the tables write it.
fn text_of(
    alloc: Global,
    answer: &Result<Option<Match>, PatternFault>,
) -> Result<String, AllocError> {
    match answer {
        Ok(Some(found)) => match_text(alloc, found),
        Ok(None) => String::from_str(alloc, "none"),
        Err(PatternFault::Malformed(rule)) => format!(in alloc; "rule {rule}"),
        Err(PatternFault::TooComplex) => String::from_str(alloc, "too complex"),
        Err(PatternFault::Memory) => String::from_str(alloc, "out of memory"),
    }
}

/// The end of a match and its captures.
fn match_text(alloc: Global, found: &Match) -> Result<String, AllocError> {
    let mut text = format!(in alloc; "{}", found.end)?;
    for capture in &found.captures {
        let part = match capture {
            Capture::Text { start, end } => format!(in alloc; " {start}-{end}")?,
            Capture::Position(place) => format!(in alloc; " @{place}")?,
        };
        text.push_str(&part)?;
    }
    Ok(text)
}
