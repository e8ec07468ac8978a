ghost use Rattle.std.specs.Prelude.{◌<◌, vec_len, OnOk};
ghost use Rattle.event_order.specs.Tables.{SameAt};

use std::alloc::AllocError;

/// Lengthens a table by device, so that it has this place.
pub(crate) fn make_place<T: Copy + Drop>(
    table: &mut Vec<Option<T>>,
    place: usize,
) -> Result<(), AllocError>
    ensures same { SameAt table.old.items table.new.items }
    ensures there { OnOk result (place < vec_len table.new) }
{
    while table.len() <= place {
        table.push(None)?;
    }
    Ok(())
}
