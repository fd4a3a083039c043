// One of the four grids.
#[derive(Clone, Copy, Debug, PartialEq, Eq)]
pub enum GridFile {
    Direction,
    Cover,
    Group,
    Water,
}

// What can be wrong with the files.
#[derive(Clone, Copy, Debug, PartialEq, Eq)]
pub enum Fault {
    // A grid is refused, 12 at this place.
    Refused(GridFile, usize),
    // A grid has another size than the directions, another corner or another cell size.
    Size(GridFile),
    Corner(GridFile),
    CellSize(GridFile),
    // The cover file has another form.
    Covers,
    // The output is too short: the text would have so many bytes.
    TooLong(usize),
}
