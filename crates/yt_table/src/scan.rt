//! Items that are found without a table.
ghost use Rattle.std.specs.Prelude.{◌≡◌, map};
ghost use Rattle.yt_table.specs.Tables.{first_of};

use yt_list::Named;

/// The index from 0 of the first of these items that has a name. Goes through them, so it is meant for lists that are short.
pub fn first_named<T: Named>(items: &[T], name: &[u8]) -> Option<usize>
    ensures { result ≡ first_of name.now 0 (map T.text items.now) }
{
    for (index, item) in items.iter().enumerate() {
        if name == item.name() {
            return Some(index);
        }
    }
    None
}
