//! The items of a list by their numbers, which start at 1.
ghost use Rattle.std.specs.Prelude.{◌≡◌};
ghost use Rattle.std.specs.Option.{option_copied};
ghost use Rattle.yt_list.specs.Numbered.{numbered};

/// The item of a number, from 1; `None` exactly where there is no such item.
pub fn numbered<T>(items: &[T], number: u32) -> Option<&T>
    ensures { option_copied result ≡ numbered items.now number }
{
    if number == 0 {
        return None;
    }
    items.get(number as usize - 1)
}
