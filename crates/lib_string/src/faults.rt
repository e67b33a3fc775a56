// The faults of the functions on texts and patterns, as errors.
ghost use Rattle.std.specs.Prelude.{◌≡◌};
ghost use Rattle.library_rows.specs.Plainly.{too_large};
ghost use Rattle.library_rows.specs.Searches.{rule_text};
ghost use Rattle.lib_string.specs.Faults.{pattern_fault_text, string_fault_text};
ghost use Rattle.library_arguments.specs.Refusals.{fault_text};

use library_arguments::{Fault, Refusal};
use lua_pattern::{PatternFault, rule};
use text_functions::StringFault;

/// The error of a text that is not made.
pub(crate) fn string_fault(fault: StringFault) -> Fault
    ensures { fault_text result ≡ string_fault_text fault }
{
    match fault {
        StringFault::TooLarge => Fault::Refused(Refusal::Text(b"resulting string too large")),
        StringFault::Memory => Fault::Memory,
    }
}

/// The error of a pattern that is refused.
pub(crate) fn pattern_fault(fault: PatternFault) -> Fault
    ensures { fault_text result ≡ pattern_fault_text fault }
{
    match fault {
        PatternFault::Malformed(rule) => Fault::Refused(Refusal::Text(rule_text(rule))),
        PatternFault::TooComplex => Fault::Refused(Refusal::Text(b"pattern too complex")),
        PatternFault::Memory => Fault::Memory,
    }
}

/// The error of a rule that a pattern breaks (`lstrlib.c`).
fn rule_text(rule: u8) -> &'static [u8]
    ensures { result.now ≡ rule_text rule }
{
    match rule {
        rule::ENDS_WITH_ESCAPE => b"malformed pattern (ends with '%')",
        rule::MISSING_BRACKET => b"malformed pattern (missing ']')",
        rule::MISSING_ARGUMENTS => b"malformed pattern (missing arguments to '%b')",
        rule::MISSING_SET => b"missing '[' after '%f' in pattern",
        rule::NOTHING_TO_CLOSE => b"invalid pattern capture",
        rule::UNFINISHED_CAPTURE => b"unfinished capture",
        rule::TOO_MANY_CAPTURES => b"too many captures",
        _ => b"invalid capture index in pattern",
    }
}
