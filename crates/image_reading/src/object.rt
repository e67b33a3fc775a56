// Records: cells, coroutines, and all of an image in their order.
ghost use Rattle.std.specs.Prelude.{◌≡◌, ◌<◌, length, map};
ghost use Rattle.image_bytes.specs.Bytes.{cell_format, coroutine_format, record_format, records_format, sort_at};
ghost use Rattle.image_reading.specs.Says.{Says, items_of, reader_in, record_scan};
ghost use Rattle.image_records.specs.Views.{record_read, sort as sort_of};

use crate::fault::{ReadFault, Refusal};
use crate::input::Input;
use crate::item::{Context, Wanted};
use image_records::{Record, Sort};

impl<'a> Input<'a> {
    /// The records, each of which something before it has named.
    #[tactic(auto, unfolding(image_bytes::specs::Bytes::records_format), using(crate::proofs::Fronts::with_no_front))]
    pub(crate) fn records(
        &mut self,
        context: &Context<'_>,
    ) -> Result<Vec<Record<'a>>, ReadFault<'a>>
        ensures reads { Says (items_of record_read) ((records_format (reader_in context.now)).scan self.old.met self.old.bytes) result self.new }
    {
        let mut records = Vec::new(context.alloc);
        for at in 0..context.sorts.len() {
            let record = self.record_at(at, context)?;
            records.push(record)?;
        }
        Ok(records)
    }

    /// The record at a place, which something has named.
    fn record_at(&mut self, at: usize, context: &Context<'_>) -> Result<Record<'a>, ReadFault<'a>>
        requires { at < length context.now.sorts.now }
        ensures reads { Says record_read (record_scan (reader_in context.now) at self.old.met self.old.bytes) result self.new }
    {
        if at as u64 >= self.met() {
            return Err(ReadFault::Refused(Refusal::OutOfRange));
        }
        let record = self.record(sort_at(context.sorts, at), context)?;
        Ok(record)
    }

    /// A record of this sort.
    #[tactic(auto, unfolding(image_bytes::specs::Bytes::record_format, image_bytes::specs::Format::when))]
    fn record(&mut self, sort: Sort, context: &Context<'_>) -> Result<Record<'a>, ReadFault<'a>>
        ensures reads { Says record_read ((record_format (reader_in context.now) (sort_of sort)).scan self.old.met self.old.bytes) result self.new }
    {
        match sort {
            Sort::Table => self.table(context),
            Sort::Function => self.function(context),
            Sort::Cell => self.cell(context),
            Sort::Coroutine => self.coroutine(context),
        }
    }

    /// A cell.
    #[tactic(auto, unfolding(image_bytes::specs::Bytes::cell_format, image_bytes::specs::Format::tagged, image_bytes::specs::Format::case, image_bytes::specs::Format::followed, image_bytes::specs::Format::when, image_bytes::specs::Format::wrong))]
    fn cell(&mut self, context: &Context<'_>) -> Result<Record<'a>, ReadFault<'a>>
        ensures reads { Says record_read ((cell_format (reader_in context.now)).scan self.old.met self.old.bytes) result self.new }
    {
        match self.byte()? {
            1 => Ok(Record::Closed(self.item(context)?)),
            2 => {
                let coroutine = self.coroutine_number(context.sorts)?;
                let frame = self.word()?;
                let register = self.word()?;
                Ok(Record::Open {
                    coroutine,
                    frame,
                    register,
                })
            }
            _ => Err(ReadFault::Refused(Refusal::OutOfPlace)),
        }
    }

    /// A coroutine.
    #[tactic(auto, unfolding(image_bytes::specs::Bytes::coroutine_format, image_bytes::specs::Format::tagged, image_bytes::specs::Format::case, image_bytes::specs::Format::followed, image_bytes::specs::Format::when, image_bytes::specs::Format::wrong, image_bytes::specs::Format::nothing))]
    fn coroutine(&mut self, context: &Context<'_>) -> Result<Record<'a>, ReadFault<'a>>
        ensures reads { Says record_read ((coroutine_format (reader_in context.now)).scan self.old.met self.old.bytes) result self.new }
    {
        match self.byte()? {
            0 => Ok(Record::Fresh(self.wanted_item(Wanted::Function, context)?)),
            1 => Ok(Record::Suspended(self.frames(context)?)),
            2 => Ok(Record::Dead),
            3 => {
                let error = self.item(context)?;
                let pending = self.items(context)?;
                Ok(Record::Failed { error, pending })
            }
            _ => Err(ReadFault::Refused(Refusal::OutOfPlace)),
        }
    }
}

/// The sort of the record at a place.
#[tactic(auto, using(crate::proofs::Sorts::sort_there))]
fn sort_at(sorts: &[Sort], at: usize) -> Sort
    requires { at < length sorts.now }
    ensures { sort_of result ≡ sort_at (map sort_of sorts.now) at }
{
    sorts[at]
}
