//! Which steps may sharpen what is known next, and which closer needs the fewest, where each fact has to be only as sharp as what reads it
//! asks for?
#![tactic(auto)]

mod agenda;
mod asking;
mod closers;
mod closings;
mod counted;
mod ends;
mod fewest;
mod homes;
mod idle;
mod marks;
mod moment;
mod needs;
mod order_set;
mod rings;
mod slots;
mod spans;
mod starts;
mod twins;
mod values;
mod waiting;
mod wakes;
mod weights;

pub use agenda::Agenda;
pub use asking::{may_say_more, node_of};
pub use fewest::{Fewest, Found, Log, Written};
pub use marks::{Marked, Marks};
