// Segments of one size, of which all before the last that is used are full.
ghost use Rattle.std.specs.Prelude.{◌≡◌, ℕ, ◌+◌, ◌*◌, ◌<◌, ◌≤◌, [], ◌∷◌, ◌++◌, length, take, IsOk, OnOk, OnErr};
ghost use Rattle.object_pool.specs.Segments.{AreFilled, objects_in};

use std::alloc::AllocError;

/// How many objects a segment holds.
pub(crate) const SEGMENT: usize = 512;

/// Puts an empty segment last.
fn add_segment<T>(segments: &mut Vec<Vec<T>>) -> Result<(), AllocError>
    ensures objects { objects_in segments.new.items ≡ objects_in segments.old.items }
    ensures filled { (n : ℕ) → AreFilled segments.old.items n → AreFilled segments.new.items n }
    ensures more { OnOk result (length segments.new.items ≡ length segments.old.items + 1) }
    ensures err { OnErr result (length segments.new.items ≡ length segments.old.items) }
{
    segments.reserve(1)?;
    let alloc = *segments.allocator();
    segments.push_reserved(Vec::with_capacity(alloc, SEGMENT)?);
    Ok(())
}

/// Puts empty segments last until there are `count`.
pub(crate) fn grow_to<T>(segments: &mut Vec<Vec<T>>, count: usize) -> Result<(), AllocError>
    ensures objects { objects_in segments.new.items ≡ objects_in segments.old.items }
    ensures filled { (n : ℕ) → AreFilled segments.old.items n → AreFilled segments.new.items n }
    ensures there { OnOk result (count ≤ length segments.new.items) }
    ensures kept { length segments.old.items ≤ length segments.new.items }
    ensures enough { count ≤ length segments.old.items → IsOk result }
{
    for _ in segments.len()..count {
        add_segment(segments)?;
    }
    Ok(())
}

/// Puts an object after the `len` that are there.
pub(crate) fn push_object<T>(segments: &mut Vec<Vec<T>>, len: usize, value: T)
    requires filled { AreFilled segments.old.items len }
    requires room { len < 512 * length segments.old.items }
    ensures objects { objects_in segments.new.items ≡ objects_in segments.old.items ++ value ∷ [] }
    ensures filled { AreFilled segments.new.items (len + 1) }
    ensures same { length segments.new.items ≡ length segments.old.items }
{
    let segment = &mut segments[len / SEGMENT];
    segment.push_reserved(value);
}

/// Drops the objects after the first `mark` of `len`, the last segment first.
pub(crate) fn cut_to<T: Drop>(segments: &mut Vec<Vec<T>>, len: usize, mark: usize)
    requires filled { AreFilled segments.old.items len }
    requires within { mark ≤ len }
    ensures objects { objects_in segments.new.items ≡ take mark (objects_in segments.old.items) }
    ensures filled { AreFilled segments.new.items mark }
    ensures same { length segments.new.items ≡ length segments.old.items }
{
    let mut left = len;
    while left > mark {
        let last = (left - 1) / SEGMENT;
        let keep = mark.max(last * SEGMENT);
        let segment = &mut segments[last];
        segment.truncate(keep - last * SEGMENT);
        left = keep;
    }
}
