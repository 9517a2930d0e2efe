//! How are the rows named?

ghost use Rattle.std.specs.Prelude.{◌≡◌, ◌++◌, ◌<◌, OnOk, length, string_bytes};
ghost use Rattle.plan_sheets.specs.Rows.{channel_text, channels_text, colour_text, label_text, node_text, nodes_text, rows_text, track_text};

use crate::pictures::canvas::{COLOURS, Canvas, row_of, top_of};
use std::alloc::AllocError;
use ttp_model::Instance;

/// Draws the names of the rows: the channels, and then the nodes in the instance's order.
#[tactic(auto, unfolding(crate::specs::Rows::rows_text))]
pub fn put_rows(text: &mut String, canvas: &Canvas, instance: &Instance) -> Result<(), AllocError>
    ensures { OnOk result (string_bytes text.new ≡ string_bytes text.old ++ rows_text canvas.now instance.now) }
{
    put_channels(text, canvas, instance)?;
    put_nodes(text, canvas, instance)
}

/// Draws the names of the channels' rows.
fn put_channels(text: &mut String, canvas: &Canvas, instance: &Instance) -> Result<(), AllocError>
    ensures { OnOk result (string_bytes text.new ≡ string_bytes text.old ++ channels_text canvas.now instance.now) }
{
    let channels = instance.cluster().channels;
    for channel in 0..channels {
        put_channel(text, canvas, channel)?;
    }
    Ok(())
}

/// Draws the names of the nodes' rows, in the instance's order.
fn put_nodes(text: &mut String, canvas: &Canvas, instance: &Instance) -> Result<(), AllocError>
    ensures { OnOk result (string_bytes text.new ≡ string_bytes text.old ++ nodes_text canvas.now instance.now) }
{
    let count = instance.nodes().len();
    for node in 0..count {
        put_node(text, canvas, instance, node)?;
    }
    Ok(())
}

/// Draws the ground of a row.
#[tactic(auto, unfolding(crate::specs::Rows::track_text))]
fn put_track(text: &mut String, canvas: &Canvas, row: u32) -> Result<(), AllocError>
    ensures { OnOk result (string_bytes text.new ≡ string_bytes text.old ++ track_text canvas.now row) }
{
    let (top, across) = (top_of(row), canvas.across);
    writeln!(
        text,
        "<rect class=\"track\" x=\"120\" y=\"{top}\" width=\"{across}\" height=\"24\"/>"
    )
}

/// Draws the name of a channel's row.
#[tactic(auto, unfolding(crate::specs::Rows::channel_text))]
fn put_channel(text: &mut String, canvas: &Canvas, channel: u32) -> Result<(), AllocError>
    ensures { OnOk result (string_bytes text.new ≡ string_bytes text.old ++ channel_text canvas.now channel) }
{
    let top = top_of(channel);
    put_track(text, canvas, channel)?;
    writeln!(
        text,
        "<svg y=\"{top}\" width=\"116\" height=\"24\"><text x=\"8\" y=\"16\">channel {channel}</text></svg>"
    )
}

/// Draws the name of a node's row, with its colour.
#[tactic(auto, unfolding(crate::specs::Rows::node_text))]
fn put_node(
    text: &mut String,
    canvas: &Canvas,
    instance: &Instance,
    node: usize,
) -> Result<(), AllocError>
    requires { node < length instance.now.nodes }
    ensures { OnOk result (string_bytes text.new ≡ string_bytes text.old ++ node_text canvas.now instance.now node) }
{
    let name = instance.nodes()[node].name.as_str();
    let row = row_of(instance, node as u32);
    let top = top_of(row);
    put_track(text, canvas, row)?;
    put_colour(text, node, top)?;
    put_label(text, name, top)
}

/// Draws the colour of a node, so far down.
#[tactic(auto, unfolding(crate::specs::Rows::colour_text))]
fn put_colour(text: &mut String, node: usize, top: u64) -> Result<(), AllocError>
    ensures { OnOk result (string_bytes text.new ≡ string_bytes text.old ++ colour_text node top) }
{
    let colour = node % COLOURS as usize;
    write!(
        text,
        "<rect class=\"n{colour}\" x=\"8\" y=\"{top}\" width=\"8\" height=\"24\"/>"
    )
}

/// Writes its name.
#[tactic(auto, unfolding(crate::specs::Rows::label_text))]
fn put_label(text: &mut String, name: &str, top: u64) -> Result<(), AllocError>
    ensures { OnOk result (string_bytes text.new ≡ string_bytes text.old ++ label_text name.now top) }
{
    writeln!(
        text,
        "<svg y=\"{top}\" width=\"116\" height=\"24\"><title>{name}</title><text x=\"22\" y=\"16\">{name}</text></svg>"
    )
}
