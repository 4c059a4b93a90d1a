//! What is printed goes into a sink: a counter of bytes, or a page, which is a lent buffer. Numbers are put here, in decimal and in
//! hexadecimal. Start with specs/Number.antt and specs/Sink.antt.
#![tactic(auto)]

mod counter;
mod digits;
mod page;
mod sink;

pub use counter::Counter;
pub use digits::{put_hexadecimal, put_integer, put_number};
pub use page::Page;
pub use sink::Sink;
