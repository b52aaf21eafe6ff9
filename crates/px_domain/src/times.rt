// The same item several times.
ghost use Rattle.std.specs.Prelude.{◌≡◌, ◌++◌, OnOk, replicate};

use std::alloc::AllocError;

// The item so many times more.
pub(crate) fn push_times<T: Copy + Drop>(
    items: &mut Vec<T>,
    item: T,
    count: u32,
) -> Result<(), AllocError>
    ensures { OnOk result (items.new.items ≡ items.old.items ++ replicate count item) }
{
    for _ in 0..count {
        items.push(item)?;
    }
    Ok(())
}
