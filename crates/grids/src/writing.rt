// A grid written in its one form.
ghost use Rattle.std.specs.Prelude.{[], ◌∷◌, ◌++◌, ◌+◌, ◌*◌, length};
ghost use Rattle.words.specs.Digits.{digits, written};
ghost use Rattle.words.specs.Writing.{Put, Wrote};
ghost use Rattle.grids.specs.Forms.{name_line, header_form, grid_form, whole_form, inches_form, form_verdict, whole_verdict, inches_verdict, most_size, most_text, most_no_data, most_header};
ghost use Rattle.grids.specs.Given.{text_as, header_as, Writes};

use crate::cells::{Cell, passing, put_cell, put_rows};
use crate::headers::Header;
use crate::judging::{BadGrid, judged};
use crate::measures::Measure;
use records::{index_of, wide};
use words::{put_byte, put_bytes, put_item};

// A name and the space after it.
fn put_name(buffer: &mut [u8], at: usize, name: &[u8]) -> usize
    ensures { Put at (name.now ++ 32 ∷ []) buffer.old buffer.new result }
{
    let end = put_bytes(buffer, at, name);
    put_byte(buffer, end, b' ')
}

fn put_size(buffer: &mut [u8], at: usize, name: &[u8], size: u32) -> usize
    ensures { Wrote (length name.now + most_size) at (name_line name.now (digits size)) buffer.old buffer.new result }
{
    let value = put_name(buffer, at, name);
    put_item(buffer, value, wide(size), b'\n')
}

fn put_measure(buffer: &mut [u8], at: usize, name: &[u8], measure: Measure) -> usize
    ensures { Wrote (length name.now + most_text) at (name_line name.now (text_as measure)) buffer.old buffer.new result }
{
    let value = put_name(buffer, at, name);
    let end = put_bytes(buffer, value, measure.text());
    put_byte(buffer, end, b'\n')
}

fn put_no_data(buffer: &mut [u8], at: usize, name: &[u8], whole: i32) -> usize
    ensures { Wrote (length name.now + most_no_data) at (name_line name.now (written whole)) buffer.old buffer.new result }
{
    let value = put_name(buffer, at, name);
    put_cell(buffer, value, whole, b'\n')
}

fn put_header(buffer: &mut [u8], header: Header) -> usize
    ensures { Wrote most_header 0 (header_form (header_as header)) buffer.old buffer.new result }
{
    let a = put_size(buffer, 0, b"ncols", header.grid.width);
    let b = put_size(buffer, a, b"nrows", header.grid.height);
    let c = put_measure(buffer, b, b"xllcorner", header.x_corner);
    let d = put_measure(buffer, c, b"yllcorner", header.y_corner);
    let e = put_measure(buffer, d, b"cellsize", header.cell_size);
    put_no_data(buffer, e, b"nodata_value", header.no_data)
}

fn put_form<C: Cell>(buffer: &mut [u8], header: Header, cells: &[C]) -> usize
    ensures { Wrote (most_header + C.most * length cells.now) 0 (grid_form C.form (header_as header) cells.now) buffer.old buffer.new result }
{
    let from = put_header(buffer, header);
    put_rows(buffer, from, index_of(header.grid.width), cells)
}

// Where the cells would end is seen first, by writing them into nothing: a buffer that is too short stays as it was.
fn write<C: Cell>(header: Header, cells: &[C], text: &mut [u8]) -> Result<usize, BadGrid>
    ensures { Writes (form_verdict C.passes C.form (header_as header) cells.now (length text.old)) (grid_form C.form (header_as header) cells.now)
        text.old text.new result }
{
    let passing = passing(header.no_data, cells);
    let end = put_form(&mut text[..0], header, cells);
    judged(header, passing, cells.len(), end <= text.len())?;
    Ok(put_form(text, header, cells))
}

// Whole numbers; how many bytes were written.
#[tactic(auto, unfolding(crate::specs::Forms::whole_verdict))]
pub fn write_grid(header: Header, cells: &[i32], text: &mut [u8]) -> Result<usize, BadGrid>
    ensures { Writes (whole_verdict (header_as header) cells.now (length text.old)) (whole_form (header_as header) cells.now)
        text.old text.new result }
{
    write(header, cells, text)
}

// Depths, in inches with four decimals; how many bytes were written.
#[tactic(auto, unfolding(crate::specs::Forms::inches_verdict))]
pub fn write_inches(header: Header, units: &[u64], text: &mut [u8]) -> Result<usize, BadGrid>
    ensures { Writes (inches_verdict (header_as header) units.now (length text.old)) (inches_form (header_as header) units.now)
        text.old text.new result }
{
    write(header, units, text)
}
