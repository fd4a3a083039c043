// The numbers of columns and rows along the map's edges.
use crate::frame::{Frame, MAP_X, MAP_Y};
use crate::parts::write_text;
use std::fmt;
use std::fmt::Write;
use words::Page;

// From this size of the map on its far side is numbered too.
const FAR_SIDE: usize = 400;

// Where the numbers stand: the columns' above the map, the rows' left of it.
#[derive(Clone, Copy)]
enum Edge {
    Above,
    Left,
}

impl Edge {
    fn numbers(self, frame: Frame) -> usize {
        match self {
            Edge::Above => frame.columns,
            Edge::Left => frame.rows,
        }
    }

    // Of a number, so far from the map's corner.
    fn place(self, along: usize) -> (usize, usize) {
        match self {
            Edge::Above => (along.saturating_add(MAP_X), MAP_Y - 8),
            Edge::Left => (MAP_X - 8, along.saturating_add(MAP_Y + 4)),
        }
    }

    fn write_numbers(self, page: &mut Page, frame: Frame) -> fmt::Result {
        for i in 0..self.numbers(frame) {
            let number = i + 1;
            if frame.is_numbered(number) {
                let (x, y) = self.place(frame.middle(i));
                write_text(page, x, y, number)?;
            }
        }
        Ok(())
    }

    // The same numbers on the far side, where that is far enough.
    fn write_again(self, page: &mut Page, frame: Frame) -> fmt::Result {
        let (size, axis, beyond) = match self {
            Edge::Above => (frame.height, r##"#x" y"##, 26),
            Edge::Left => (frame.width, r##"#y" x"##, 32),
        };
        if size < FAR_SIDE {
            return Ok(());
        }
        let away = size.saturating_add(beyond);
        writeln!(page, r#"<use xlink:href="{axis}="{away}"/>"#)
    }

    fn write(self, page: &mut Page, frame: Frame) -> fmt::Result {
        let named = match self {
            Edge::Above => r#"id="x" class="i""#,
            Edge::Left => r#"id="y" class="j""#,
        };
        writeln!(page, "<g {named}>")?;
        self.write_numbers(page, frame)?;
        writeln!(page, "</g>")?;
        self.write_again(page, frame)
    }
}

pub(crate) fn write_edges(page: &mut Page, frame: Frame) -> fmt::Result {
    Edge::Above.write(page, frame)?;
    Edge::Left.write(page, frame)
}
