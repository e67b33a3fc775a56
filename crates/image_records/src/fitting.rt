// What is looked at when all records are read: that each Lua frame fits the instruction at which it waits, and that each open cell names a register that is
// there and that no other cell names.
ghost use Rattle.std.specs.Prelude.{◌≡◌, ◌<◌, ℕ, List, Some, length, map, nat_lt, slice_get, IfOk};
ghost use Rattle.std.specs.Option.{option_map};
ghost use Rattle.int_core.specs.Value.{bind};
ghost use Rattle.machine_core.specs.World.{dropped, for_call, for_close, for_concat, for_iterator, for_truth, for_value, returning};
ghost use Rattle.std.specs.List.{list_all};
ghost use Rattle.code_core.specs.declared.instruction.Instruction.{Instruction as Word};
ghost use Rattle.code_core.specs.Check.{at};
ghost use Rattle.code_core.specs.Instruction.{b_of};
ghost use Rattle.image_core.specs.Image.{Item as ItemShown, Record as RecordShown};
ghost use Rattle.image_sound.specs.Fitting.{all_fit, code_in, code_of_item, fits_code, frame_fits, frames_in, lua_fits, lua_frame_in, opened_once, record_fits, register_there};
ghost use Rattle.machine_sound.specs.Sound.{kept_below, waiting_size, waits_at};
ghost use Rattle.image_records.specs.Fits.{HoldsPlaces, IsPlaceOf, OpensAnew, fits_at};
ghost use Rattle.image_records.specs.Names.{code_of as code_named, proto_of};
ghost use Rattle.image_records.specs.Views.{frame as frame_of, item as item_of, lua_frame as lua_frame_of, record_read, wait as wait_of};

use crate::known::Known;
use crate::record::{Frame, Item, Kind, LuaFrame, Record, Wait};
use code_core::{Instruction, Opcode, Proto};
use indexmap::IndexSet;
use std::alloc::{AllocError, Global};

/// A register at which a cell is open.
#[derive(Debug, Clone, Copy, PartialEq, Eq, Hash)]
struct OpenPlace {
    coroutine: u32,
    frame: u32,
    register: u32,
}

/// Whether all records fit.
pub fn all_fit(alloc: Global, records: &[Record<'_>], known: &Known<'_>) -> Result<bool, AllocError>
    ensures { IfOk result (λ fits. fits ≡ all_fit (code_named known.now) (map record_read records.now)) }
{
    if !each_fits(records, known) {
        return Ok(false);
    }
    let once = opened_once(alloc, records)?;
    Ok(once)
}

/// Whether each record fits by itself.
fn each_fits(records: &[Record<'_>], known: &Known<'_>) -> bool
    ensures { result ≡ list_all (record_fits (code_named known.now) (map record_read records.now)) (map record_read records.now) }
{
    for record in records {
        if !record_fits(record, records, known) {
            return false;
        }
    }
    true
}

/// Whether the frames of a coroutine fit, or the register of an open cell is there.
fn record_fits(read: &Record<'_>, records: &[Record<'_>], known: &Known<'_>) -> bool
    ensures { result ≡ record_fits (code_named known.now) (map record_read records.now) (record_read read.now) }
{
    match read {
        Record::Suspended(frames) => frames_fit(frames, records, known),
        Record::Open {
            coroutine,
            frame,
            register,
        } => register_there(records, *coroutine, *frame, *register),
        Record::Table { .. } => true,
        Record::Function { .. } => true,
        Record::Closed(_) => true,
        Record::Fresh(_) => true,
        Record::Dead => true,
        Record::Failed { .. } => true,
    }
}

/// Whether frames fit.
fn frames_fit(frames: &[Frame<'_>], records: &[Record<'_>], known: &Known<'_>) -> bool
    ensures { result ≡ list_all (frame_fits (code_named known.now) (map record_read records.now)) (map frame_of frames.now) }
{
    for frame in frames {
        if !frame_fits(frame, records, known) {
            return false;
        }
    }
    true
}

/// Whether a frame fits.
fn frame_fits(frame: &Frame<'_>, records: &[Record<'_>], known: &Known<'_>) -> bool
    ensures { result ≡ frame_fits (code_named known.now) (map record_read records.now) (frame_of frame.now) }
{
    match frame {
        Frame::Lua(own) => lua_fits(own, records, known),
        Frame::Pcall => true,
        Frame::Xpcall(_) => true,
        Frame::Handler => true,
        Frame::Closing { .. } => true,
    }
}

/// Whether a Lua function's frame fits its code.
fn lua_fits(frame: &LuaFrame<'_>, records: &[Record<'_>], known: &Known<'_>) -> bool
    ensures { result ≡ lua_fits (code_named known.now) (map record_read records.now) (lua_frame_of frame.now) }
{
    match code_of(frame.function, records, known) {
        Some(proto) => fits_code(frame, proto),
        None => false,
    }
}

/// The code of a frame's function.
fn code_of<'s>(
    function: Item<'_>,
    records: &'s [Record<'_>],
    known: &'s Known<'_>,
) -> Option<&'s Proto>
    ensures { proto_of result ≡ code_of_item (code_named known.now) (map record_read records.now) (item_of function.entry) }
{
    match function {
        Item::Numbered(n) => code_at(records, n as usize),
        Item::Permanent(Kind::Function, key) => known.code(key),
        Item::Permanent(Kind::Table, _) => None,
        Item::Permanent(Kind::Coroutine, _) => None,
        Item::Nil => None,
        Item::Bool(_) => None,
        Item::Int(_) => None,
        Item::Str(_) => None,
        Item::Environment => None,
    }
}

/// The code of the function whose record stands at a place.
#[tactic(auto, using(crate::proofs::Counts::slice_mapped))]
fn code_at<'s>(records: &'s [Record<'_>], at: usize) -> Option<&'s Proto>
    ensures { proto_of result ≡ bind (slice_get (map record_read records.now) at) code_in }
{
    match records.get(at)? {
        Record::Function { code, .. } => Some(code.proto()),
        Record::Table { .. } => None,
        Record::Closed(_) => None,
        Record::Open { .. } => None,
        Record::Fresh(_) => None,
        Record::Suspended(_) => None,
        Record::Dead => None,
        Record::Failed { .. } => None,
    }
}

/// Whether a frame fits the instruction of this code at which it waits.
fn fits_code(frame: &LuaFrame<'_>, proto: &Proto) -> bool
    ensures { result ≡ fits_code (lua_frame_of frame.now) proto.now }
{
    let Some(word) = instruction_at(proto, frame.pc) else {
        return false;
    };
    match word.opcode() {
        Some(opcode) => fits_at(frame, proto.stack, word, opcode),
        None => false,
    }
}

/// The instruction at a place of code.
fn instruction_at(proto: &Proto, pc: u32) -> Option<Instruction>
    ensures { result ≡ at proto.now pc }
{
    proto.code.get(pc as usize).copied()
}

/// Whether a frame may wait at an instruction, with so many registers, and its pending registers are kept.
fn fits_at(frame: &LuaFrame<'_>, stack: u8, word: Instruction, opcode: Opcode) -> bool
    ensures { result ≡ fits_at (lua_frame_of frame.now) stack word opcode }
{
    if !waits_at(frame.wait, opcode, word) {
        return false;
    }
    if frame.registers.len() != waiting_size(frame.wait, word, stack) {
        return false;
    }
    if !all_below(&frame.pending, usize::from(stack)) {
        return false;
    }
    all_below(&frame.pending, kept_below(frame.wait, word, stack))
}

/// Whether a frame may wait so at an instruction.
fn waits_at(wait: Wait<'_>, opcode: Opcode, word: Instruction) -> bool
    ensures { result ≡ waits_at (wait_of wait.entry) opcode word }
{
    match wait {
        Wait::ForCall => calls(opcode),
        Wait::ForIterator => iterates(opcode),
        Wait::ForValue => gives_value(opcode),
        Wait::ForTruth => compares(opcode),
        Wait::Dropped => sets(opcode),
        Wait::ForConcat(left) => concatenates(opcode, left, word.b()),
        Wait::ForClose => closes(opcode),
        Wait::Returning(_) => returns(opcode),
        Wait::Leaving(_) => true,
    }
}

/// Whether an instruction may wait for a call.
fn calls(opcode: Opcode) -> bool
    ensures { (word : Word) → result ≡ waits_at {V = ItemShown} for_call opcode word }
{
    match opcode {
        Opcode::Call => true,
        _ => false,
    }
}

/// Whether an instruction may wait for an iterator.
fn iterates(opcode: Opcode) -> bool
    ensures { (word : Word) → result ≡ waits_at {V = ItemShown} for_iterator opcode word }
{
    match opcode {
        Opcode::TForCall => true,
        _ => false,
    }
}

/// Whether an instruction may wait for a value.
fn gives_value(opcode: Opcode) -> bool
    ensures { (word : Word) → result ≡ waits_at {V = ItemShown} for_value opcode word }
{
    match opcode {
        Opcode::GetTabUp | Opcode::GetTable | Opcode::GetI | Opcode::GetField | Opcode::OpSelf =>
            true,
        Opcode::MmBin | Opcode::MmBinI | Opcode::MmBinK => true,
        Opcode::Unm | Opcode::BNot | Opcode::Len => true,
        _ => false,
    }
}

/// Whether an instruction may wait for a truth.
fn compares(opcode: Opcode) -> bool
    ensures { (word : Word) → result ≡ waits_at {V = ItemShown} for_truth opcode word }
{
    match opcode {
        Opcode::Eq | Opcode::Lt | Opcode::Le | Opcode::EqK | Opcode::EqI => true,
        Opcode::LtI | Opcode::LeI | Opcode::GtI | Opcode::GeI => true,
        _ => false,
    }
}

/// Whether an instruction may wait for what it drops.
fn sets(opcode: Opcode) -> bool
    ensures { (word : Word) → result ≡ waits_at {V = ItemShown} dropped opcode word }
{
    match opcode {
        Opcode::SetTabUp | Opcode::SetTable | Opcode::SetI | Opcode::SetField => true,
        _ => false,
    }
}

/// Whether an instruction of so many operands may wait where so many are left: at least two have been taken.
fn concatenates(opcode: Opcode, left: u8, operands: u8) -> bool
    ensures { (word : Word) → b_of word ≡ operands → result ≡ waits_at {V = ItemShown} (for_concat left) opcode word }
{
    match opcode {
        Opcode::Concat => u32::from(left) + 2 <= u32::from(operands),
        _ => false,
    }
}

/// Whether an instruction may wait for a closing.
fn closes(opcode: Opcode) -> bool
    ensures { (word : Word) → result ≡ waits_at {V = ItemShown} for_close opcode word }
{
    match opcode {
        Opcode::Close => true,
        _ => false,
    }
}

/// Whether an instruction may wait while its function returns.
fn returns(opcode: Opcode) -> bool
    ensures { (count : ℕ) (word : Word) → result ≡ waits_at {V = ItemShown} (returning count) opcode word }
{
    match opcode {
        Opcode::Return | Opcode::Return0 | Opcode::Return1 => true,
        _ => false,
    }
}

/// How many registers a frame has that waits at an instruction.
#[tactic(auto, using(crate::proofs::Counts::behind_some))]
fn waiting_size(wait: Wait<'_>, word: Instruction, stack: u8) -> usize
    ensures { result ≡ waiting_size (wait_of wait.entry) word stack }
{
    let own = usize::from(stack);
    match wait {
        Wait::Returning(0) => own,
        Wait::Returning(count) => own.max(usize::from(word.a()) + count as usize),
        Wait::ForCall => own,
        Wait::ForIterator => own,
        Wait::ForValue => own,
        Wait::ForTruth => own,
        Wait::Dropped => own,
        Wait::ForConcat(_) => own,
        Wait::ForClose => own,
        Wait::Leaving(_) => own,
    }
}

/// Below which register the pending ones of a frame are that waits at an instruction.
fn kept_below(wait: Wait<'_>, word: Instruction, stack: u8) -> usize
    ensures { result ≡ kept_below (wait_of wait.entry) word stack }
{
    let own = usize::from(stack);
    match wait {
        Wait::ForCall => usize::from(word.a()),
        Wait::ForIterator => usize::from(word.a()) + 4,
        Wait::ForValue => own,
        Wait::ForTruth => own,
        Wait::Dropped => own,
        Wait::ForConcat(_) => own,
        Wait::ForClose => own,
        Wait::Returning(_) => own,
        Wait::Leaving(_) => own,
    }
}

/// Whether all registers are below one.
fn all_below(registers: &[u32], bound: usize) -> bool
    ensures { result ≡ list_all (λ r. nat_lt r bound) registers.now }
{
    registers.iter().all(|r| (*r as usize) < bound)
}

/// Whether a Lua frame of a coroutine that waits has a register.
fn register_there(records: &[Record<'_>], coroutine: u32, frame: u32, register: u32) -> bool
    ensures { result ≡ register_there (map record_read records.now) coroutine frame register }
{
    match frame_at(records, coroutine as usize, frame as usize) {
        Some(own) => (register as usize) < own.registers.len(),
        None => false,
    }
}

/// The Lua frame of a number in a coroutine that waits.
fn frame_at<'s, 'a>(
    records: &'s [Record<'a>],
    coroutine: usize,
    frame: usize,
) -> Option<&'s LuaFrame<'a>>
    ensures { option_map (λ f. lua_frame_of f.now) result ≡ bind (bind (bind (slice_get (map record_read records.now) coroutine) frames_in) (λ fs. slice_get fs frame)) lua_frame_in }
{
    let frames = frames_at(records, coroutine)?;
    let own = lua_frame_at(frames, frame)?;
    Some(own)
}

/// The frames of a coroutine that waits.
#[tactic(auto, using(crate::proofs::Counts::slice_mapped))]
fn frames_at<'s, 'a>(records: &'s [Record<'a>], at: usize) -> Option<&'s [Frame<'a>]>
    ensures { option_map (λ fs. map frame_of fs.now) result ≡ bind (slice_get (map record_read records.now) at) frames_in }
{
    match records.get(at)? {
        Record::Suspended(frames) => Some(frames.as_slice()),
        Record::Table { .. } => None,
        Record::Function { .. } => None,
        Record::Closed(_) => None,
        Record::Open { .. } => None,
        Record::Fresh(_) => None,
        Record::Dead => None,
        Record::Failed { .. } => None,
    }
}

/// The frame of a number, where it is a Lua function's.
#[tactic(auto, using(crate::proofs::Counts::slice_mapped))]
fn lua_frame_at<'s, 'a>(frames: &'s [Frame<'a>], at: usize) -> Option<&'s LuaFrame<'a>>
    ensures { option_map (λ f. lua_frame_of f.now) result ≡ bind (slice_get (map frame_of frames.now) at) lua_frame_in }
{
    match frames.get(at)? {
        Frame::Lua(own) => Some(own),
        Frame::Pcall => None,
        Frame::Xpcall(_) => None,
        Frame::Handler => None,
        Frame::Closing { .. } => None,
    }
}

/// Whether no two cells are open at one register.
fn opened_once(alloc: Global, records: &[Record<'_>]) -> Result<bool, AllocError>
    ensures { IfOk result (λ once. once ≡ opened_once (map record_read records.now)) }
{
    let mut places = IndexSet::new(alloc);
    let mut left = records.len();
    'back: while left > 0 {
        if !opens_anew(&mut places, record_at(records, left - 1))? {
            return Ok(false);
        }
        left -= 1;
    }
    Ok(true)
}

/// The record at a place.
fn record_at<'s, 'a>(records: &'s [Record<'a>], at: usize) -> &'s Record<'a>
    requires { at < length records.now }
    ensures { slice_get records.now at ≡ Some result.now }
{
    &records[at]
}

/// Whether a cell is open where none of those is whose places are given, if it is one. Its place is added.
fn opens_anew(places: &mut IndexSet<OpenPlace>, read: &Record<'_>) -> Result<bool, AllocError>
    ensures { (rs : List RecordShown) → HoldsPlaces places.old.keys rs → IfOk result (λ new. OpensAnew places.new.keys (record_read read.now) rs new) }
{
    match place_of(read) {
        Some(place) => {
            let new = places.insert(place)?;
            Ok(new)
        }
        None => Ok(true),
    }
}

/// Where a cell is open, if it is one that is.
fn place_of(read: &Record<'_>) -> Option<OpenPlace>
    ensures { IsPlaceOf (record_read read.now) result }
{
    match read {
        Record::Open {
            coroutine,
            frame,
            register,
        } => Some(OpenPlace {
            coroutine: *coroutine,
            frame: *frame,
            register: *register,
        }),
        Record::Table { .. } => None,
        Record::Function { .. } => None,
        Record::Closed(_) => None,
        Record::Fresh(_) => None,
        Record::Suspended(_) => None,
        Record::Dead => None,
        Record::Failed { .. } => None,
    }
}
