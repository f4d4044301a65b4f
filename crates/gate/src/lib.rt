// The gate record: thirty-two bytes that hold one gate's two travel limits and its label. Written, read, named and given new
// limits here; what each operation answers is defined in specs/, in the file of the same name.
#![tactic(auto)]

pub mod answer;
mod bytes;
mod form;
mod label;
mod limit;
mod limiting;
mod naming;
mod reading;
mod writing;

pub use limiting::set_limits;
pub use naming::{shown_name, shown_span};
pub use reading::{is_free, read};
pub use writing::write;
