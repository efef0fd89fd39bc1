// Reading the parts of a source without a step outside them. A place whose number would be too large for
// its type lies past the end.
ghost use Rattle.std.specs.Prelude.{◌≡◌, ◌+◌, nat_le, slice_index_or};
ghost use Rattle.model.specs.Making.{two_of};

// The element at a place, or the default past the end.
pub fn item_or<T: Copy>(items: &[T], at: usize, default: T) -> T
    ensures { result ≡ slice_index_or items.now at default }
{
    items.get(at).copied().unwrap_or(default)
}

// The element at a place counted from start, or the default past the end.
pub fn item_from<T: Copy>(items: &[T], start: usize, at: usize, default: T) -> T
    ensures { result ≡ slice_index_or items.now (start + at) default }
{
    start
        .checked_add(at)
        .map_or(default, |place| item_or(items, place, default))
}

// Whether a part of so many elements from start on ends within len.
pub fn ends_inside(start: usize, count: usize, len: usize) -> bool
    ensures { result ≡ nat_le (start + count) len }
{
    start.checked_add(count).is_some_and(|end| end <= len)
}

// Whether the two numbers name different lines that exist.
pub fn names_two(lines: usize, first: usize, second: usize) -> bool
    ensures { result ≡ two_of lines first second }
{
    first < lines && second < lines && first != second
}
