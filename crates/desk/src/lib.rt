// The mapping desk's files as a text of `balance` (M-101): four grids, a cover file and a weather file, as one function from bytes to bytes.
#![tactic(auto)]

mod answers;
mod cover_file;
mod faults;
mod sheets;
mod texts;

pub use answers::setup_text;
pub use faults::{Fault, GridFile};
