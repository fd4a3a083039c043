// A grid's header.
ghost use Rattle.std.specs.Prelude.{◌≡◌};
ghost use Rattle.words.specs.Words.{words};
ghost use Rattle.grids.specs.Headers.{no_header, header_fits, named as named_in, values_in, header_of};
ghost use Rattle.grids.specs.Given.{header_as, header_in};

use crate::measures::Measure;
use crate::names::{measure_at, named_at, size_at, whole_at};
use crate::wholes::whole_fits;
use records::Grid;

// What a grid's file says of it: columns and rows, where its lower left corner lies, how wide a cell is, and the number that stands where nothing is known.
#[derive(Clone, Copy)]
pub struct Header {
    pub grid: Grid,
    pub x_corner: Measure,
    pub y_corner: Measure,
    pub cell_size: Measure,
    pub no_data: i32,
}

fn named(text: &[u8]) -> bool
    ensures { result ≡ named_in (words text.now) }
{
    named_at(text, 0, b"ncols")
        & named_at(text, 2, b"nrows")
        & named_at(text, 4, b"xllcorner")
        & named_at(text, 6, b"yllcorner")
        & named_at(text, 8, b"cellsize")
        & named_at(text, 10, b"nodata_value")
}

#[tactic(auto, unfolding(crate::specs::Headers::values_in))]
fn values(text: &[u8]) -> Header
    ensures { result ≡ header_in (values_in (words text.now)) }
{
    Header {
        grid: Grid {
            width: size_at(text, 1),
            height: size_at(text, 3),
        },
        x_corner: measure_at(text, 5),
        y_corner: measure_at(text, 7),
        cell_size: measure_at(text, 9),
        no_data: whole_at(text, 11),
    }
}

impl Header {
    // The empty header, which no grid has; `header_of` and `read_verdict` speak of it, so it is no Option.
    pub fn none() -> Header
        ensures { result ≡ header_in no_header }
    {
        Header {
            grid: Grid {
                width: 0,
                height: 0,
            },
            x_corner: Measure::none(),
            y_corner: Measure::none(),
            cell_size: Measure::none(),
            no_data: 0,
        }
    }

    // What stands at a text's front; the empty header, where the names are others.
    #[tactic(auto, unfolding(crate::specs::Headers::header_of))]
    pub(crate) fn in_text(text: &[u8]) -> Header
        ensures { result ≡ header_in (header_of (words text.now)) }
    {
        if named(text) {
            return values(text);
        }
        Header::none()
    }

    #[tactic(auto, unfolding(crate::specs::Headers::header_fits))]
    pub fn fits(self) -> bool
        ensures { result ≡ header_fits (header_as self) }
    {
        self.grid.fits()
            & self.x_corner.fits()
            & self.y_corner.fits()
            & self.cell_size.fits()
            & whole_fits(self.no_data)
    }
}
