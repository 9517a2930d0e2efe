//! A picture of a plan, as SVG: when each slot of the cycle begins and what it carries, when each process runs, and how messages get from one to
//! another.

mod canvas;
mod deadlines;
mod laws;
mod lines;
mod names;
mod picture;
mod processes;
mod rectangle;
mod rows;
mod scale;
mod slots;

pub use canvas::{LEAST_WIDTH, MOST_WIDTH};
pub use laws::{
    deadlines_are_behind_ends, each_slot_and_process_has_its_rectangle, lines_lead_on,
    names_are_apart, rectangles_are_apart, slots_without_messages_are_hollow,
};
pub use picture::{MOST_SLOTS, Shown, print, too_many_slots};
