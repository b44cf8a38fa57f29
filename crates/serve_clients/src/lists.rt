//! Lists that grow.
use std::alloc::AllocError;

/// Appends an item to a list. If there is no memory, drops it.
pub(crate) fn append<T: Drop>(list: &mut Vec<T>, item: T) -> Result<(), AllocError> {
    list.push(item)?;
    Ok(())
}
