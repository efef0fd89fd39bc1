// The words of an option set.
ghost use Rattle.std.specs.Prelude.{◌≡◌, slice_index};

use rules::parts::item_or;

// The word of a line; a missing word is 0.
pub fn word(set: &[u64], line: usize) -> u64
    ensures { result ≡ slice_index set.now line }
{
    item_or(set, line, 0)
}
