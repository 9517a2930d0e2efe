//! How is a rectangle of a row written, and what is written into it?

ghost use Rattle.std.specs.Prelude.{◌≡◌, ◌++◌, OnOk, Some, string_bytes};
ghost use Rattle.plan_sheets.specs.Rectangles.{frame_text, opened_text, opening_text, pixels_text, rectangle_text};

use crate::pictures::canvas::{COLOURS, Canvas, top_of};
use std::alloc::AllocError;
use std::fmt;

/// A rectangle of a row: a slot or a process.
#[derive(Clone, Copy)]
pub struct Rectangle {
    /// The row: first the channels, then the nodes.
    pub row: u32,
    /// The node that it is of, which has a colour.
    pub node: u32,
    /// When it begins, in ticks.
    pub start: u64,
    /// How many ticks it takes.
    pub length: u64,
}

impl fmt::Display for Rectangle {
    ghost output = { λ x. Some (rectangle_text x) };

    #[tactic(auto, unfolding(crate::specs::Rectangles::rectangle_text))]
    fn fmt<W: fmt::Write>(&self, f: &mut fmt::Formatter<W>) -> fmt::Result {
        let (start, top, length) = (self.start, top_of(self.row), self.length);
        let colour = self.node % COLOURS;
        write!(
            f,
            "<rect class=\"n{colour}\" x=\"{start}\" y=\"{top}\" width=\"{length}\" height=\"24\"/>"
        )
    }
}

/// What begins a text in a rectangle, which is cut off where it ends. Ticks have no height: the inner `svg` gives the text its
/// pixels again.
#[derive(Clone, Copy)]
struct Opening {
    canvas: Canvas,
    rectangle: Rectangle,
}

impl fmt::Display for Opening {
    ghost output = { λ x. Some (opening_text x.canvas x.rectangle) };

    #[tactic(auto, unfolding(crate::specs::Rectangles::opening_text))]
    fn fmt<W: fmt::Write>(&self, f: &mut fmt::Formatter<W>) -> fmt::Result {
        let (frame, pixels) = (
            Frame {
                start: self.rectangle.start,
                top: top_of(self.rectangle.row),
                length: self.rectangle.length,
            },
            Pixels {
                cycle: self.canvas.cycle,
                across: self.canvas.across,
                node: self.rectangle.node,
            },
        );
        write!(f, "{frame}{pixels}")
    }
}

/// An `svg` element at the ticks of a rectangle.
#[derive(Clone, Copy)]
struct Frame {
    start: u64,
    top: u64,
    length: u64,
}

impl fmt::Display for Frame {
    ghost output = { λ x. Some (frame_text x.start x.top x.length) };

    #[tactic(auto, unfolding(crate::specs::Rectangles::frame_text))]
    fn fmt<W: fmt::Write>(&self, f: &mut fmt::Formatter<W>) -> fmt::Result {
        let (start, top, length) = (self.start, self.top, self.length);
        write!(
            f,
            "<svg x=\"{start}\" y=\"{top}\" width=\"{length}\" height=\"24\">"
        )
    }
}

/// One whose units are pixels, with the beginning of a text on the colour of a node.
#[derive(Clone, Copy)]
struct Pixels {
    cycle: u64,
    across: u64,
    node: u32,
}

impl fmt::Display for Pixels {
    ghost output = { λ x. Some (pixels_text x.cycle x.across x.node) };

    #[tactic(auto, unfolding(crate::specs::Rectangles::pixels_text))]
    fn fmt<W: fmt::Write>(&self, f: &mut fmt::Formatter<W>) -> fmt::Result {
        let (cycle, across, colour) = (self.cycle, self.across, self.node % COLOURS);
        write!(
            f,
            "<svg width=\"{cycle}\" height=\"24\" viewBox=\"0 0 {across} 24\" preserveAspectRatio=\"none\"><text class=\"t{colour}\" x=\"4\" y=\"16\">"
        )
    }
}

/// Adds the beginning of a text in a rectangle, which isn't drawn.
pub fn put_opening(
    text: &mut String,
    canvas: &Canvas,
    rectangle: &Rectangle,
) -> Result<(), AllocError>
    ensures { OnOk result (string_bytes text.new ≡ string_bytes text.old ++ opening_text canvas.now rectangle.now) }
{
    let opening = Opening {
        canvas: *canvas,
        rectangle: *rectangle,
    };
    write!(text, "{opening}")
}

/// Adds a rectangle, and the beginning of a text in it.
#[tactic(auto, unfolding(crate::specs::Rectangles::opened_text))]
pub fn put_opened(
    text: &mut String,
    canvas: &Canvas,
    rectangle: &Rectangle,
) -> Result<(), AllocError>
    ensures { OnOk result (string_bytes text.new ≡ string_bytes text.old ++ opened_text canvas.now rectangle.now) }
{
    let shown = *rectangle;
    write!(text, "{shown}")?;
    put_opening(text, canvas, rectangle)
}
