//! The map of a device on the page for people.
use crate::map::DeviceMap;
use std::alloc::AllocError;
use std::io;

/// What stands before the cells.
const HEAD: &str = "<section id=\"map\">\n<h2>Map of the device</h2>\n";

/// What stands behind the cells.
const TAIL: &str =
    r#"<p class="legend"><i class="clean"></i> clean <i class="active"></i> active <i class="marked"></i> marked</p>
<p>This is what the metadata file of the local image says. After a kill the next start copies the active extents and the marked blocks. An extent
is active from before a write to it until its blocks are on stable storage of both images. Its marks are written there when it leaves the active
ones, so what was copied meanwhile may still be marked here.</p>
"#;

/// Adds the map of a device: a sentence, the cells, and what they mean. `None` if no metadata is kept, and an error if the file could not be read.
pub(crate) fn add_map(
    page: &mut String,
    map: &Option<io::Result<DeviceMap>>,
) -> Result<(), AllocError> {
    page.push_str(HEAD)?;
    match map {
        None => page.push_str("<p>No metadata is kept, so there is no map.</p>\n")?,
        Some(Err(_)) => page.push_str("<p>The metadata file could not be read.</p>\n")?,
        Some(Ok(map)) => add_cells(page, map)?,
    }
    page.push_str("</section>\n")
}

// Adds the sentence and the cells.
fn add_cells(page: &mut String, map: &DeviceMap) -> Result<(), AllocError> {
    let DeviceMap {
        extents,
        in_cell,
        active,
        marked,
        ..
    } = map;
    write!(
        page,
        "<p id=\"map-told\">{extents} extents of 4 MiB: {active} active, {marked} with marked blocks. Extents in a cell: {in_cell}.</p>\n"
    )?;
    if !map.has_marks {
        page.push_str(
            "<p>The device is so large that the marks of its blocks are not read for the map: it shows the active extents alone.</p>\n",
        )?;
    }
    page.push_str("<div id=\"cells\" role=\"img\" aria-labelledby=\"map-told\">")?;
    for (index, cell) in map.cells.iter().enumerate() {
        let first = (index as u64).saturating_mul(u64::from(*in_cell));
        let name = cell.name();
        write!(
            page,
            "<i class=\"{name}\" title=\"extent {first}: {name}\"></i>"
        )?;
    }
    page.push_str("</div>\n")?;
    page.push_str(TAIL)
}
