// Whether a function can be written as a chunk.
ghost use Rattle.std.specs.Prelude.{Bool, ◌≡◌, ◌^◌, ◌-◌, min};
ghost use Rattle.std.specs.List.{list_all};
ghost use Rattle.code_core.specs.Prototype.{count};
ghost use Rattle.code_core.specs.Writable as writable;

use code_core::{AbsLine, Const, Instruction, LocVar, Proto, UpDesc};
use int_core::Bytes;

/// How many bytes a string can have.
const GREATEST_STRING: usize = 16_777_216;

/// Whether a number is one that a chunk can hold.
fn number_fits(n: u32) -> bool
    ensures { result ≡ writable.number_fits n }
{
    n < 1 << 31
}

/// Whether a list's length is one that a chunk can hold.
fn length_fits(n: usize) -> bool
    ensures { result ≡ writable.number_fits n }
{
    n < 1 << 31
}

/// Whether an integer has 64 bits, as each of this type has.
fn integer_fits(n: i64) -> bool
    ensures { result ≡ writable.signed_fits 63 n }
{
    n >= i64::MIN
}

/// Whether a byte has 8 bits, as each of this type has.
fn byte_fits(n: u8) -> bool
    ensures { result ≡ writable.byte_fits n }
{
    n <= u8::MAX
}

/// An entry of a function's lists.
trait Entry: Drop {
    // which ones a chunk can hold
    ghost fitting: { Self → Bool };

    /// Whether a chunk can hold it.
    fn fits(&self) -> bool
        ensures told { result ≡ fitting self.now };
}

impl Entry for Instruction {
    ghost fitting = { writable.word_fits };

    // It has 32 bits, as each of this type has.
    fn fits(&self) -> bool {
        self.0 <= u32::MAX
    }
}

impl Entry for Const {
    ghost fitting = { writable.constant_fits };

    fn fits(&self) -> bool {
        match self {
            Const::Str(bytes) => bytes.len() <= GREATEST_STRING,
            Const::Int(n) => integer_fits(*n),
            _ => true,
        }
    }
}

impl Entry for UpDesc {
    ghost fitting = { writable.upvalue_fits };

    fn fits(&self) -> bool {
        byte_fits(self.index) && self.kind <= 3
    }
}

impl Entry for i8 {
    ghost fitting = { writable.change_fits };

    // The change of a line has 8 bits, as each of this type has.
    fn fits(&self) -> bool {
        *self >= i8::MIN
    }
}

impl Entry for AbsLine {
    ghost fitting = { writable.line_fits };

    fn fits(&self) -> bool {
        number_fits(self.pc) && number_fits(self.line)
    }
}

impl Entry for LocVar {
    ghost fitting = { writable.local_fits };

    fn fits(&self) -> bool {
        self.name.fits() && number_fits(self.start) && number_fits(self.end)
    }
}

impl Entry for Option<Bytes> {
    ghost fitting = { writable.name_fits };

    fn fits(&self) -> bool {
        match self {
            Some(bytes) => bytes.len() <= GREATEST_STRING,
            None => true,
        }
    }
}

/// Whether a chunk can hold all entries of a list.
fn all_fit<T: Entry>(entries: &[T]) -> bool
    ensures { result ≡ list_all T.fitting entries.now }
{
    entries.iter().all(|entry| entry.fits())
}

/// Whether the lists of a function are short enough.
fn lists_fit(proto: &Proto) -> bool
    ensures { result ≡ writable.lists_fit proto.now.own }
{
    length_fits(proto.code.len())
        && length_fits(proto.constants.len())
        && proto.upvalues.len() <= 255
        && length_fits(proto.line_info.len())
        && length_fits(proto.abs_lines.len())
        && length_fits(proto.locals.len())
        && length_fits(proto.up_names.len())
}

/// Whether the entries of a function's lists can be written.
fn entries_fit(proto: &Proto) -> bool
    ensures { result ≡ writable.entries_fit proto.now.own }
{
    all_fit(&proto.code)
        && all_fit(&proto.constants)
        && all_fit(&proto.upvalues)
        && all_fit(&proto.line_info)
        && all_fit(&proto.abs_lines)
        && all_fit(&proto.locals)
        && all_fit(&proto.up_names)
}

/// Whether a function without those that are defined in it can be written.
fn parts_fit(proto: &Proto) -> bool
    ensures { result ≡ writable.parts_fit proto.now.own }
{
    proto.source.fits()
        && number_fits(proto.line_defined)
        && number_fits(proto.last_line)
        && byte_fits(proto.params)
        && byte_fits(proto.stack)
        && lists_fit(proto)
        && entries_fit(proto)
}

/// Whether a function has a source if its parent has one.
fn keeps_source(parent: &Proto, own: &Proto) -> bool
    ensures { result ≡ writable.keeps_source parent.now.own own.now.own }
{
    parent.source.is_none() || own.source.is_some()
}

/// Whether all that are defined in a function can be written but for their depth and their number.
fn inner_fit(proto: &Proto) -> bool
    ensures { result ≡ writable.all_fit proto.now.own proto.now.inner }
{
    for inner in &proto.protos {
        if !keeps_source(proto, inner) || !parts_fit(inner) || !inner_fit(inner) {
            return false;
        }
    }
    true
}

/// How deep the functions in a function are nested, or the greatest number of this type if that is less.
fn depth(proto: &Proto) -> u32
    ensures { result ≡ min (writable.depth proto.now.inner) (2 ^ 32 - 1) }
{
    let mut greatest: u32 = 0;
    for inner in &proto.protos {
        greatest = greatest.max(depth(inner).saturating_add(1));
    }
    greatest
}

/// How many functions are defined in a function, or the greatest number of this type if that is less.
fn inner_count(proto: &Proto) -> u64
    ensures { result ≡ min (count proto.now.inner) (2 ^ 64 - 1) }
{
    let mut total: u64 = 0;
    for inner in &proto.protos {
        total = total.saturating_add(1).saturating_add(inner_count(inner));
    }
    total
}

/// Whether a function can be written as a chunk.
pub fn is_writable(proto: &Proto) -> bool
    ensures { result ≡ writable.is_writable proto.now }
{
    parts_fit(proto) && inner_fit(proto) && depth(proto) < 500 && inner_count(proto) < (1 << 31) - 1
}
