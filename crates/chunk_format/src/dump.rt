// A function's prototype, written as bytes.
ghost use Rattle.std.specs.Prelude.{◌≡◌, ◌++◌, if◌then◌else◌, None, OnOk};
ghost use Rattle.code_core.specs.Prototype.{prototypes};
ghost use Rattle.chunk_format.specs.Spelling as spelled;

use crate::item::write_list;
use crate::output::{write_name, write_number};
use code_core::Proto;
use int_core::{Allocated, Bytes};

/// Whether both names are there and the same.
fn is_same_name(a: &Option<Bytes>, b: &Option<Bytes>) -> bool
    ensures { result ≡ spelled.is_same_name a.now b.now }
{
    match (a, b) {
        (Some(a), Some(b)) => a == b,
        _ => false,
    }
}

/// Writes a source's name, unless it is the parent's or is to be left out.
fn write_source(
    out: &mut Vec<u8>,
    parent: &Option<Bytes>,
    own: &Option<Bytes>,
    strip: bool,
) -> Allocated<()>
    ensures { OnOk result (out.new.items ≡ out.old.items ++ spelled.source parent.now (if strip then None else own.now)) }
{
    if strip {
        return write_number(out, 0);
    }
    if is_same_name(own, parent) {
        write_number(out, 0)
    } else {
        write_name(out, own)
    }
}

/// Writes what stands in front of the lists.
fn write_head(
    out: &mut Vec<u8>,
    parent: &Option<Bytes>,
    proto: &Proto,
    strip: bool,
) -> Allocated<()>
    ensures { OnOk result (out.new.items ≡ out.old.items ++ spelled.head parent.now (spelled.kept_parts strip proto.now.own)) }
{
    write_source(out, parent, &proto.source, strip)?;
    write_number(out, proto.line_defined as usize)?;
    write_number(out, proto.last_line as usize)?;
    out.push(proto.params)?;
    out.push(u8::from(proto.vararg))?;
    out.push(proto.stack)?;
    Ok(())
}

/// Writes the lists in front of the inner functions.
fn write_lists(out: &mut Vec<u8>, proto: &Proto) -> Allocated<()>
    ensures { OnOk result (out.new.items ≡ out.old.items ++ spelled.lists proto.now.own) }
{
    write_list(out, &proto.code)?;
    write_list(out, &proto.constants)?;
    write_list(out, &proto.upvalues)
}

/// Writes the lists behind the inner functions.
fn write_details(out: &mut Vec<u8>, proto: &Proto, strip: bool) -> Allocated<()>
    ensures { OnOk result (out.new.items ≡ out.old.items ++ spelled.details (spelled.kept_parts strip proto.now.own)) }
{
    if strip {
        write_number(out, 0)?;
        write_number(out, 0)?;
        write_number(out, 0)?;
        return write_number(out, 0);
    }
    write_list(out, &proto.line_info)?;
    write_list(out, &proto.abs_lines)?;
    write_list(out, &proto.locals)?;
    write_list(out, &proto.up_names)
}

/// Writes a function inside one whose source is the parent's.
#[cycle(dump)]
pub fn write(out: &mut Vec<u8>, parent: &Option<Bytes>, proto: &Proto, strip: bool) -> Allocated<()>
    ensures { OnOk result (out.new.items ≡ out.old.items ++ spelled.function parent.now (spelled.kept strip proto.now)) }
{
    write_head(out, parent, proto, strip)?;
    write_lists(out, proto)?;
    write_inner(out, proto, strip)?;
    write_details(out, proto, strip)
}

/// Writes the functions that are defined in another: their number, then each of them.
#[cycle(dump)]
#[tactic(auto, using(crate::proofs::Kept::length_kept))]
fn write_inner(out: &mut Vec<u8>, proto: &Proto, strip: bool) -> Allocated<()>
    ensures { OnOk result (out.new.items ≡ out.old.items ++ spelled.inner (spelled.kept strip proto.now)) }
{
    write_number(out, proto.protos.len())?;
    if strip {
        return write_all(out, &None, &proto.protos, strip);
    }
    write_all(out, &proto.source, &proto.protos, strip)
}

/// Writes functions, one after another.
#[cycle(dump)]
fn write_all(
    out: &mut Vec<u8>,
    parent: &Option<Bytes>,
    protos: &[Proto],
    strip: bool,
) -> Allocated<()>
    ensures { OnOk result (out.new.items ≡ out.old.items ++ spelled.functions parent.now (spelled.all_kept strip (prototypes protos.now))) }
{
    for proto in protos {
        write(out, parent, proto, strip)?;
    }
    Ok(())
}
