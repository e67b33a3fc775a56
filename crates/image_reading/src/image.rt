// Whole images.
ghost use Rattle.std.specs.Prelude.{nat_eq, nat_lt, nat_le, ◌&&◌, map};
ghost use Rattle.image_bytes.specs.Bytes.{sorts_format, image_format, with_sorts};
ghost use Rattle.image_bytes.specs.Format.{tested, byte, times, of_kind};
ghost use Rattle.image_reading.specs.Faults.{fault};
ghost use Rattle.image_reading.specs.Reader.{reader_of};
ghost use Rattle.image_reading.specs.Reads.{Reads, parts_scan};
ghost use Rattle.image_reading.specs.Says.{Says, itself, items_of};
ghost use Rattle.image_records.specs.Views.{image_read, sort as sort_of};

use crate::fault::{ReadFault, Refusal};
use crate::input::Input;
use crate::item::Context;
use image_records::{Image, Known, Sort, all_fit};
use std::alloc::Global;

/// The version.
const VERSION: u8 = 1;

/// Reads an image with so many roots. The answer that is no image is the first fault in the order of the bytes; bytes that are left over
/// come after those, and frames and open cells that do not fit come last.
pub fn read_image<'a>(
    alloc: Global,
    bytes: &'a [u8],
    known: &Known<'_>,
    roots: u8,
) -> Result<Image<'a>, ReadFault<'a>>
    ensures { Reads known.now roots bytes.now result }
{
    let mut input = Input::new(bytes);
    let image = input.image(known, roots, alloc)?;
    let left = input.len();
    if left > 0 {
        return Err(ReadFault::Refused(Refusal::LeftOver));
    }
    let fits = all_fit(alloc, &image.records, known)?;
    if !fits {
        return Err(ReadFault::Refused(Refusal::Unfit));
    }
    Ok(image)
}

impl<'a> Input<'a> {
    /// An image, whatever follows it.
    #[tactic(auto, unfolding(image_bytes::specs::Bytes::exactly, image_bytes::specs::Bytes::image_format, image_bytes::specs::Format::case, image_bytes::specs::Format::followed))]
    fn image(
        &mut self,
        known: &Known<'_>,
        roots: u8,
        alloc: Global,
    ) -> Result<Image<'a>, ReadFault<'a>>
        ensures reads { Says image_read ((image_format (reader_of known.now) roots).scan self.old.met self.old.bytes) result self.new }
    {
        self.exactly(b'L', Refusal::Signature)?;
        self.exactly(b'U', Refusal::Signature)?;
        self.exactly(b'I', Refusal::Signature)?;
        self.exactly(b'M', Refusal::Signature)?;
        self.exactly(VERSION, Refusal::Version)?;
        let sorts = self.sorts(alloc)?;
        let image = self.parts(known, &sorts, roots, alloc)?;
        Ok(image)
    }

    /// The roots and the records, which are of these sorts.
    #[tactic(auto, unfolding(image_bytes::specs::Bytes::exactly, image_bytes::specs::Format::followed))]
    fn parts(
        &mut self,
        known: &Known<'_>,
        sorts: &[Sort],
        roots: u8,
        alloc: Global,
    ) -> Result<Image<'a>, ReadFault<'a>>
        ensures reads { Says image_read (parts_scan (with_sorts (reader_of known.now) (map sort_of sorts.now)) roots self.old.met self.old.bytes) result self.new }
    {
        let context = Context {
            known,
            sorts,
            alloc,
        };
        let count = self.exactly(roots, Refusal::OutOfRange)?;
        let roots = self.items_of(u32::from(count), &context)?;
        let records = self.records(&context)?;
        Ok(Image { roots, records })
    }

    /// This very byte, else the fault.
    #[tactic(auto, unfolding(image_bytes::specs::Format::tested))]
    fn exactly(&mut self, wanted: u8, otherwise: Refusal<'a>) -> Result<u8, ReadFault<'a>>
        ensures reads { Says itself ((tested (nat_eq wanted) (λ _. fault otherwise.entry) byte).scan self.old.met self.old.bytes) result self.new }
    {
        let found = self.byte()?;
        if found == wanted {
            Ok(found)
        } else {
            Err(ReadFault::Refused(otherwise))
        }
    }

    /// The sorts of records.
    #[tactic(auto, unfolding(image_bytes::specs::Bytes::sorts_format, image_bytes::specs::Format::list_by, image_bytes::specs::Format::case, image_bytes::specs::Format::followed))]
    fn sorts(&mut self, alloc: Global) -> Result<Vec<Sort>, ReadFault<'a>>
        ensures reads { Says (items_of sort_of) (sorts_format.scan self.old.met self.old.bytes) result self.new }
    {
        let count = self.word()?;
        let sorts = self.sorts_of(count, alloc)?;
        Ok(sorts)
    }

    /// The sorts of so many records.
    #[tactic(auto, unfolding(image_bytes::specs::Format::times), using(crate::proofs::Fronts::with_no_front))]
    fn sorts_of(&mut self, count: u32, alloc: Global) -> Result<Vec<Sort>, ReadFault<'a>>
        ensures reads { Says (items_of sort_of) ((times count (tested (λ s. nat_lt 0 s && nat_le s 4) (λ s. of_kind 5) byte)).scan self.old.met self.old.bytes) result self.new }
    {
        let mut sorts = Vec::new(alloc);
        for _ in 0..count {
            let sort = self.sort()?;
            sorts.push(sort)?;
        }
        Ok(sorts)
    }

    /// The sort of a record.
    #[tactic(auto, unfolding(image_bytes::specs::Format::tested))]
    fn sort(&mut self) -> Result<Sort, ReadFault<'a>>
        ensures reads { Says sort_of ((tested (λ s. nat_lt 0 s && nat_le s 4) (λ s. of_kind 5) byte).scan self.old.met self.old.bytes) result self.new }
    {
        match self.byte()? {
            1 => Ok(Sort::Table),
            2 => Ok(Sort::Function),
            3 => Ok(Sort::Cell),
            4 => Ok(Sort::Coroutine),
            _ => Err(ReadFault::Refused(Refusal::OutOfPlace)),
        }
    }
}
