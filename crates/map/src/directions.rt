// Where water leaves a cell for.

#[derive(Clone, Copy)]
pub(crate) enum Direction {
    East,
    Southeast,
    South,
    Southwest,
    West,
    Northwest,
    North,
    Northeast,
}

impl Direction {
    // By the number of a cell's direction; water leaves by no other number.
    pub(crate) fn of(number: u32) -> Option<Direction> {
        match number {
            1 => Some(Direction::East),
            2 => Some(Direction::Southeast),
            4 => Some(Direction::South),
            8 => Some(Direction::Southwest),
            16 => Some(Direction::West),
            32 => Some(Direction::Northwest),
            64 => Some(Direction::North),
            128 => Some(Direction::Northeast),
            _ => None,
        }
    }

    // From the cell's centre: back to the arrow's tail, then its shaft and its two barbs.
    pub(crate) fn arrow(self) -> &'static str {
        match self {
            Direction::East => "m-.25 0h.55m-.15-.15l.15 .15l-.15 .15",
            Direction::Southeast => "m-.18-.18l.4 .4m0-.21v.21h-.21",
            Direction::South => "m0-.25v.55m.15-.15l-.15 .15l-.15-.15",
            Direction::Southwest => "m.18-.18l-.4 .4m0-.21v.21h.21",
            Direction::West => "m.25 0h-.55m.15-.15l-.15 .15l.15 .15",
            Direction::Northwest => "m.18 .18l-.4-.4m0 .21v-.21h.21",
            Direction::North => "m0 .25v-.55m.15 .15l-.15-.15l-.15 .15",
            Direction::Northeast => "m-.18 .18l.4-.4m0 .21v-.21h-.21",
        }
    }
}
