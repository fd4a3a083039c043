// Words and whole numbers as bytes, both ways, and depths in inches. A reader asks for the next word, or for a line's end, and for the number that a
// word means; a writer writes what fits and says where it would end.
#![tactic(auto)]

mod inches;
mod numbers;
mod page;
mod putting;
mod spans;

pub use inches::{Inches, put_inches};
pub use numbers::{is_digit, number};
pub use page::Page;
pub use putting::{put_below, put_byte, put_bytes, put_item, put_number};
pub use spans::{Span, line_end, next_word};
