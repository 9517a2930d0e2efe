//! How large is a picture, and where in it is a tick?

ghost use Rattle.std.specs.Prelude.{◌≡◌, ◌+◌, ◌*◌, ◌<◌, ◌≤◌, Some, length};
ghost use Rattle.ttp_model.specs.Plans.{IsValid};
ghost use Rattle.plan_sheets.specs.Limits.{least_width, most_width};
ghost use Rattle.plan_sheets.specs.Canvas.{IsCanvas, canvas_of, place_of, row_of, tenths_text, top_of};

use std::fmt;
use tt_layout::{Layout, cycle_rounds};
use ttp_model::{Instance, Plan};

/// How many pixels a picture has across, at least.
pub const LEAST_WIDTH: u32 = 200;
/// How many pixels a picture has across, at most.
pub const MOST_WIDTH: u32 = 10_000;

/// No cycle has more ticks, by far; ten times so many by the pixels of a picture are a number of 64 bits.
pub const MOST_CYCLE: u64 = 100_000_000_000_000;

/// How many colours nodes have: behind the last one the first comes again.
pub const COLOURS: u32 = 16;

/// The pixels on the left of tick 0, where names stand.
const LEFT: u32 = 120;
/// The pixels on the right of the cycle's end.
const RIGHT: u32 = 32;
/// The pixels above the rows, where the scale stands.
const HEAD: u32 = 52;
/// The pixels below them.
const FOOT: u32 = 8;
/// How high a row is, in pixels.
const ROW: u32 = 34;
/// How far below the top of a row its rectangles begin. They are 24 pixels high.
const GAP: u32 = 5;

/// The measures of a picture.
#[derive(Clone, Copy)]
pub struct Canvas {
    /// How wide it is, in pixels.
    pub width: u64,
    /// How high it is, in pixels.
    pub height: u64,
    /// How wide the cycle is, in pixels.
    pub across: u64,
    /// How long the cycle is, in ticks.
    pub cycle: u64,
}

/// The measures of the picture of a valid plan.
pub fn canvas_of(instance: &Instance, plan: &Plan, width: u32) -> Canvas
    requires valid { IsValid instance.now plan.now }
    requires least { least_width ≤ width }
    requires most { width ≤ most_width }
    ensures value { result ≡ canvas_of instance.now plan.now width }
    ensures sound { IsCanvas result }
{
    let layout = Layout::of(instance, plan.order.as_slice(), plan.caps.as_slice());
    let rows = u64::from(instance.cluster().channels) + instance.nodes().len() as u64;
    Canvas {
        width: width as u64,
        height: u64::from(HEAD) + u64::from(ROW) * rows + u64::from(FOOT),
        across: (width - LEFT - RIGHT) as u64,
        cycle: u64::from(cycle_rounds(instance, plan)) * layout.round_length(),
    }
}

/// The row of a node: the channels' rows come first, and then the nodes' in the instance's order.
pub fn row_of(instance: &Instance, node: u32) -> u32
    requires { node < length instance.now.nodes }
    ensures { result ≡ row_of instance.now node }
{
    let _nodes = instance.nodes();
    instance.cluster().channels + node
}

/// Where the rectangles of a row begin, in pixels from the top of the picture.
pub fn top_of(row: u32) -> u64
    ensures { result ≡ top_of row }
{
    u64::from(HEAD) + u64::from(ROW) * u64::from(row) + u64::from(GAP)
}

/// So many tenths of a pixel: where a tick is, from the left of the picture.
#[derive(Clone, Copy)]
pub struct Tenths(pub u64);

impl fmt::Display for Tenths {
    ghost output = { λ x. Some (tenths_text x.0) };

    #[tactic(auto, unfolding(crate::specs::Canvas::tenths_text))]
    fn fmt<W: fmt::Write>(&self, f: &mut fmt::Formatter<W>) -> fmt::Result {
        let pixels = self.0 / 10;
        let rest = self.0 % 10;
        write!(f, "{pixels}.{rest}")
    }
}

/// Where a tick of the cycle is.
pub fn place_of(canvas: &Canvas, tick: u64) -> Tenths
    requires sound { IsCanvas canvas.now }
    requires inside { tick ≤ MOST_CYCLE }
    ensures { result.0 ≡ place_of canvas.now tick }
{
    Tenths(tick * (10 * canvas.across) / canvas.cycle + 10 * u64::from(LEFT))
}
