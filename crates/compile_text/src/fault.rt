// Why a source is refused.
ghost use Rattle.std.specs.Prelude.{◌≡◌};
ghost use Rattle.compile_text.specs.Faults.{fault_of_lexer, fault_of_parser, fault_of_rules};

use lua_lex::LexFault;
use lua_parse::ParseFault;
use scope_core::ScopeFault;
use std::alloc::AllocError;
use thiserror::Error;

/// Why a source has no code.
#[derive(Debug, Drop, Error)]
pub enum TextFault {
    /// A place of it begins no token, or a token cannot stand where it does.
    #[error("source refused at line {line}")]
    Source {
        /// The line of that place or token.
        line: u32,
    },
    /// It breaks a static rule, or the limit on its bytes, which is rule 13.
    #[error("source refused by rule {rule} at line {line}")]
    Rule {
        /// The number of the rule, from 1 to 13.
        rule: u8,
        /// The line of the violation; 1 for rule 13.
        line: u32,
    },
    /// Memory ran out.
    #[error("out of memory")]
    Memory,
}

impl From<AllocError> for TextFault {
    ghost use Rattle.compile_text.specs.declared.fault.TextFault.TheVariants.{Memory};

    ghost from_gives = { λ _ made. made ≡ Memory };

    fn from(_: AllocError) -> TextFault {
        TextFault::Memory
    }
}

impl From<LexFault> for TextFault {
    ghost from_gives = { λ fault made. made ≡ fault_of_lexer fault };

    fn from(fault: LexFault) -> TextFault {
        match fault {
            LexFault::Refused { line } => TextFault::Source { line },
            LexFault::Limit => TextFault::Rule { rule: 13, line: 1 },
            LexFault::Memory => TextFault::Memory,
        }
    }
}

impl From<ParseFault> for TextFault {
    ghost from_gives = { λ fault made. made ≡ fault_of_parser fault };

    fn from(fault: ParseFault) -> TextFault {
        match fault {
            ParseFault::Refused { line } => TextFault::Source { line },
            ParseFault::Memory => TextFault::Memory,
        }
    }
}

impl From<ScopeFault> for TextFault {
    ghost from_gives = { λ fault made. made ≡ fault_of_rules fault };

    fn from(fault: ScopeFault) -> TextFault {
        match fault {
            ScopeFault::Refused { rule, line } => TextFault::Rule { rule, line },
            ScopeFault::Memory => TextFault::Memory,
        }
    }
}
