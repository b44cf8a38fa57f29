//! A map of a device: which of its extents are active, and which have marked blocks.
ghost use Rattle.std.specs.Prelude.{◌≡◌};
ghost use Rattle.serve_page.specs.Map.{letter_of, state_of, worse};

use std::alloc::{AllocError, Global};

/// The most cells of a map.
const MOST_CELLS: u32 = 1024;

/// What an extent is, or the extents of a cell: the last one of this list that one of them is.
#[derive(Clone, Copy, Debug, PartialEq, Eq)]
pub enum CellState {
    /// Both disks have the same, as far as the metadata says.
    Clean,
    /// It is entered in the activity log: after a kill it is copied.
    Active,
    /// It has blocks that are marked.
    Marked,
}

impl CellState {
    /// Returns what an extent is.
    pub fn of_extent(is_active: bool, is_marked: bool) -> CellState
        ensures { result ≡ state_of is_active is_marked }
    {
        match (is_active, is_marked) {
            (_, true) => CellState::Marked,
            (true, false) => CellState::Active,
            (false, false) => CellState::Clean,
        }
    }

    // Returns what a cell of this is with an extent of that.
    fn with(self, other: CellState) -> CellState
        ensures { result ≡ worse self other }
    {
        match (self, other) {
            (CellState::Marked, _) | (_, CellState::Marked) => CellState::Marked,
            (CellState::Active, _) | (_, CellState::Active) => CellState::Active,
            _ => CellState::Clean,
        }
    }

    // Returns the letter that stands for it.
    fn letter(self) -> char
        ensures { result ≡ letter_of self }
    {
        match self {
            CellState::Clean => '.',
            CellState::Active => 'a',
            CellState::Marked => 'm',
        }
    }

    /// Returns the word for it, which is also the class of its cells on the page.
    pub(crate) fn name(self) -> &'static str {
        match self {
            CellState::Clean => "clean",
            CellState::Active => "active",
            CellState::Marked => "marked",
        }
    }
}

/// A map of a device, whose extents are noted one after another.
#[derive(Drop)]
pub struct DeviceMap {
    /// The extents of the device, and how many of them share a cell.
    pub(crate) extents: u32,
    pub(crate) in_cell: u32,
    /// Whether the marks of the blocks were read. Those of a large device are not.
    pub(crate) has_marks: bool,
    /// How many extents are active with no block marked, and how many have a marked one.
    pub(crate) active: u32,
    pub(crate) marked: u32,
    pub(crate) cells: Vec<CellState>,
    // How many extents of the last cell were noted, 0 once that is full.
    noted: u32,
}

impl DeviceMap {
    /// Returns a map of so many extents, with none noted yet. `has_marks` says whether the marks of the blocks are known.
    pub fn new(alloc: Global, extents: u32, has_marks: bool) -> DeviceMap {
        DeviceMap {
            extents,
            in_cell: extents.div_ceil(MOST_CELLS).max(1),
            has_marks,
            active: 0,
            marked: 0,
            cells: Vec::new(alloc),
            noted: 0,
        }
    }

    /// Notes what the next extent is. `AllocError` if there is no memory for its cell.
    pub fn note(&mut self, state: CellState) -> Result<(), AllocError> {
        match state {
            CellState::Clean => {}
            CellState::Active => self.active = self.active.saturating_add(1),
            CellState::Marked => self.marked = self.marked.saturating_add(1),
        }
        let is_first = self.noted == 0;
        self.noted = self.noted.saturating_add(1);
        if self.noted >= self.in_cell {
            self.noted = 0;
        }
        match self.cells.last_mut() {
            Some(cell) if !is_first => *cell = cell.with(state),
            _ => self.cells.push(state)?,
        }
        Ok(())
    }

    /// Returns the map as JSON: `extents`, `extents_in_cell`, `active`, `marked`, `marks_read`, and `cells`, a text with a letter for each cell:
    /// `.` for a clean one, `a` for an active one, and `m` for one with marked blocks.
    pub fn json(&self, alloc: Global) -> Result<String, AllocError> {
        let mut letters = String::new(alloc);
        for cell in self.cells.iter() {
            letters.push(cell.letter())?;
        }
        format!(in alloc;
            "{{\"extents\":{},\"extents_in_cell\":{},\"active\":{},\"marked\":{},\"marks_read\":{},\"cells\":\"{letters}\"}}",
            self.extents, self.in_cell, self.active, self.marked, self.has_marks
        )
    }
}
