// What can be wrong with an operation, and its text (luaG_typeerror, luaG_opinterror, luaG_ordererror and luaG_runerror of ldebug.c).
ghost use Rattle.std.specs.Prelude.{◌≡◌, ℕ, List, IfOk};
ghost use Rattle.int_core.specs.Operations.{cannot_compare, of_type};
ghost use Rattle.lua_heap.specs.Reading.{value};
ghost use Rattle.meta_ops.specs.Outcome.{fault_text};

use int_core::Allocated;
use lua_heap::type_name;
use std::alloc::Global;
use table_core::Value;

/// What is wrong with an operation.
#[derive(Debug, Clone, Copy, PartialEq, Eq)]
pub enum Fault {
    /// A value is no table and has no handler.
    Index(Value),
    /// More links of `__index` than are followed.
    IndexChain,
    /// More links of `__newindex` than are followed.
    NewIndexChain,
    /// A value is stored at nil.
    NilKey,
    /// A value is no function and has no handler.
    Call(Value),
    /// More links of `__call` than are followed.
    CallChain,
    /// An operand of arithmetic is no integer and spells none.
    Arithmetic(Value),
    /// An operand of a bitwise operator is no integer and spells none.
    Bitwise(Value),
    DivisionByZero,
    ModuloByZero,
    /// An operand of `..` is neither a string nor an integer.
    Concatenate(Value),
    /// A concatenation has more bytes than a string may have.
    TooLarge,
    /// A value has no length.
    Length(Value),
    /// Two values have no order.
    Compare(Value, Value),
}

impl Fault {
    /// The text of the error that it raises, without the place that stands in front.
    pub fn text(self, alloc: Global) -> Allocated<Vec<u8>>
        ensures { IfOk result (λ text. (texts : List (List ℕ)) → text.items ≡ fault_text texts self) }
    {
        match self {
            Fault::Index(v) => wrong_type(alloc, b"index", v),
            Fault::Call(v) => wrong_type(alloc, b"call", v),
            Fault::Arithmetic(v) => wrong_type(alloc, b"perform arithmetic on", v),
            Fault::Bitwise(v) => wrong_type(alloc, b"perform bitwise operation on", v),
            Fault::Concatenate(v) => wrong_type(alloc, b"concatenate", v),
            Fault::Length(v) => wrong_type(alloc, b"get length of", v),
            Fault::Compare(left, right) => no_order(alloc, left, right),
            Fault::IndexChain => { b"'__index' chain too long; possibly a loop".to_vec(alloc) }
            Fault::NewIndexChain => {
                b"'__newindex' chain too long; possibly a loop".to_vec(alloc)
            }
            Fault::NilKey => b"table index is nil".to_vec(alloc),
            Fault::CallChain => b"stack overflow".to_vec(alloc),
            Fault::DivisionByZero => b"attempt to perform 'n//0'".to_vec(alloc),
            Fault::ModuloByZero => b"attempt to perform 'n%%0'".to_vec(alloc),
            Fault::TooLarge => b"resulting string too large".to_vec(alloc),
        }
    }
}

/// The text where a value does not fit what is attempted.
fn wrong_type(alloc: Global, attempt: &[u8], v: Value) -> Allocated<Vec<u8>>
    ensures { IfOk result (λ text. (texts : List (List ℕ)) → text.items ≡ of_type attempt.now (value texts v)) }
{
    let mut text = Vec::new(alloc);
    text.extend_from_slice(b"attempt to ")?;
    text.extend_from_slice(attempt)?;
    text.extend_from_slice(b" a ")?;
    text.extend_from_slice(type_name(v))?;
    text.extend_from_slice(b" value")?;
    Ok(text)
}

/// The text where two values have no order.
fn no_order(alloc: Global, left: Value, right: Value) -> Allocated<Vec<u8>>
    ensures { IfOk result (λ text. (texts : List (List ℕ)) → text.items ≡ cannot_compare (value texts left) (value texts right)) }
{
    let (left, right) = (type_name(left), type_name(right));
    let mut text = Vec::new(alloc);
    if left == right {
        text.extend_from_slice(b"attempt to compare two ")?;
        text.extend_from_slice(left)?;
        text.extend_from_slice(b" values")?;
        return Ok(text);
    }
    text.extend_from_slice(b"attempt to compare ")?;
    text.extend_from_slice(left)?;
    text.extend_from_slice(b" with ")?;
    text.extend_from_slice(right)?;
    Ok(text)
}
