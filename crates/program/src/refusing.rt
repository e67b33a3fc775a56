// Why the bytes of a file are no session's image.
ghost use Rattle.std.specs.Prelude.{◌≡◌, Some};
ghost use Rattle.std.specs.Option.{option_map};
ghost use Rattle.image_reading.specs.Faults.{fault};
ghost use Rattle.image_core.specs.Image.{text_key};
ghost use Rattle.image_records.specs.Views.{key};
ghost use Rattle.program.specs.Outcomes.{IsToldOf, IsToldOfReading};

use crate::fault::Fault;
use graph_core::PermanentKey;
use image_reading::{ReadFault, Refusal};
use image_records::Key;
use std::alloc::Global;

/// The fault that tells why some bytes are not read.
pub fn fault_of_reading(alloc: Global, fault: ReadFault<'_>) -> Fault
    ensures { IsToldOfReading fault.entry result }
{
    match fault {
        ReadFault::Refused(why) => fault_of_image(alloc, why),
        ReadFault::Memory => Fault::Memory,
    }
}

/// The fault that tells of a refusal, with a copy of the key that it names.
fn fault_of_image(alloc: Global, why: Refusal<'_>) -> Fault
    ensures { IsToldOf (fault why.entry) result }
{
    let kind = why.kind();
    match key_of(why) {
        None => Fault::NoImage { kind },
        Some(Key::Number(number)) => {
            let key = PermanentKey::Number(number);
            Fault::NoPermanent { kind, key }
        }
        Some(Key::Text(text)) => of_text(alloc, kind, text),
    }
}

/// The fault that tells of a permanent that is named by a text.
fn of_text(alloc: Global, kind: u8, text: &[u8]) -> Fault
    ensures { IsToldOf (record { kind = kind; key = Some (text_key text.now) }) result }
{
    match text.to_vec(alloc) {
        Ok(text) => {
            let key = PermanentKey::Text(text);
            Fault::NoPermanent { kind, key }
        }
        Err(_) => Fault::Memory,
    }
}

/// The key that a refusal names.
fn key_of(why: Refusal<'_>) -> Option<Key<'_>>
    ensures { option_map key result ≡ (fault why.entry).key }
{
    match why {
        Refusal::Missing(key) => Some(key),
        Refusal::OtherSort(key) => Some(key),
        Refusal::Signature | Refusal::Version | Refusal::CutOff | Refusal::OutOfRange => None,
        Refusal::OutOfPlace | Refusal::Code | Refusal::Unfit | Refusal::LeftOver => None,
    }
}
