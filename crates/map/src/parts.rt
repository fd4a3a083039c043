// Parts of the map's markup that are written in many places.
use std::fmt;
use std::fmt::{Display, Formatter, Write};
use words::Page;

pub(crate) fn write_text(
    page: &mut Page,
    x: usize,
    y: usize,
    words: impl Display + Drop,
) -> fmt::Result {
    writeln!(page, r#"<text x="{x}" y="{y}">{words}</text>"#)
}

// The end of a word for so many things.
pub(crate) fn plural(n: usize) -> &'static str {
    if n == 1 { "" } else { "s" }
}

// So many things, by the word for one.
#[derive(Clone, Copy)]
pub(crate) struct Counted(pub(crate) usize, pub(crate) &'static str);

impl Display for Counted {
    fn fmt<W: fmt::Write>(&self, f: &mut Formatter<W>) -> fmt::Result {
        let number = self.0;
        let thing = self.1;
        let several = plural(number);
        write!(f, "{number} {thing}{several}")
    }
}
