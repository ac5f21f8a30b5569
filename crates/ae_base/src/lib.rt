//! Sets of numbers, terms, cubes, names and lists.
#![tactic(auto)]

mod cube;
mod digits;
mod form;
mod laws;
mod limits;
mod mask;
mod memory;
mod name;
mod seq;
mod step;
mod text;
mod twins;

pub use cube::{Cube, Point, Polarity, Term};
pub use digits::{
    NUMBER_DIGITS, are_digits, are_literals, cube_of, is_bit, read_bits, read_number,
};
pub use form::{Features, Form};
pub use laws::{cube_laws, member_laws, order_laws, set_laws};
pub use limits::{
    FACTORED_CUBES, GATES, NAME_BYTES, NET_LINES, PINS, REDDY_TERMS, SOURCE_LINES,
    SOURCE_NAME_BYTES, TEXT_BYTES, WIDTH, WRITTEN_LINES,
};
pub use mask::{Mask, MaskIter};
pub use memory::Memory;
pub use name::{Name, copies, is_name, is_source_name};
pub use seq::{Seq, push_new};
pub use step::Step;
pub use text::{push_bits, push_names, push_word};
pub use twins::{has_twins, share};
