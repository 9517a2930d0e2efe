//! What is the whole picture?

ghost use Rattle.std.specs.Prelude.{◌≡◌, ◌++◌, ◌*◌, ◌≤◌, ◌<◌, IfOk, OnOk, Some, length, string_bytes};
ghost use Rattle.ttp_model.specs.Delays.{delay};
ghost use Rattle.ttp_model.specs.Plans.{IsValid};
ghost use Rattle.ttp_model.specs.Slots.{round_length};
ghost use Rattle.plan_sheets.specs.Limits.{least_width, most_width};
ghost use Rattle.plan_sheets.specs.Canvas.{IsCanvas};
ghost use Rattle.plan_sheets.specs.Picture.{boxes_text, caption_text, cycle_slots, figures_words, front_text, ground_text, head_text, hollow_text, limits_text, picture_text, style_text, ticks_text, title_text, too_many_slots, whole_text};

use crate::pictures::canvas::{Canvas, canvas_of};
use crate::pictures::deadlines::{put_deadlines, put_horizon};
use crate::pictures::lines::put_lines;
use crate::pictures::processes::put_processes;
use crate::pictures::rows::put_rows;
use crate::pictures::scale::{put_delay, put_scale};
use crate::pictures::slots::{Load, put_bands, put_slots};
use std::alloc::{AllocError, Global};
use std::fmt;
use tt_layout::{Layout, cycle_rounds};
use ttp_model::{Instance, MemoryFault, Plan, delay};

/// Of how many slots a picture may be that shows each, at most.
pub const MOST_SLOTS: u64 = 100_000;

/// Which slots are shown.
#[derive(Clone, Copy, PartialEq, Eq)]
pub enum Shown {
    /// Each of the cycle.
    All,
    /// Those that carry a message.
    Used,
}

/// How many slots a cycle has, whatever channels there are.
fn cycle_slots(instance: &Instance, plan: &Plan) -> u64
    requires { IsValid instance.now plan.now }
    ensures { result ≡ cycle_slots instance.now plan.now }
{
    u64::from(cycle_rounds(instance, plan)) * instance.nodes().len() as u64
}

/// How many slots the cycle has, where a picture would show each and these are too many.
pub fn too_many_slots(instance: &Instance, plan: &Plan, shown: Shown) -> Option<u64>
    requires { IsValid instance.now plan.now }
    ensures { result ≡ too_many_slots instance.now plan.now shown }
{
    match shown {
        Shown::Used => None,
        Shown::All => {
            let slots = cycle_slots(instance, plan);
            if MOST_SLOTS < slots {
                Some(slots)
            } else {
                None
            }
        }
    }
}

/// How texts and shapes look. Colours of nodes differ in lightness too, of neighbours the most.
const STYLE: &str =
    "<style>text{font:12px sans-serif;fill:#222}text.mark{text-anchor:middle}line{stroke:#555}line.mark{stroke:#ddd}line.delay{stroke:#c00;stroke-dasharray:4 3}line.horizon,.due line{stroke:#c00}text.horizon,.due text{fill:#c00}text.horizon{text-anchor:end}.due text{font-size:9px;text-anchor:middle}.track{fill:#f4f4f4}.n0{fill:#044763}.n1{fill:#d7706c}.n2{fill:#007656}.n3{fill:#c1acfe}.n4{fill:#704e01}.n5{fill:#04b3cb}.n6{fill:#bd5983}.n7{fill:#a9dc8e}.n8{fill:#044e80}.n9{fill:#da825f}.n10{fill:#017f74}.n11{fill:#edadf6}.n12{fill:#656009}.n13{fill:#16bcec}.n14{fill:#cd6372}.n15{fill:#91ecb0}text.t0,text.t2,text.t4,text.t6,text.t8,text.t10,text.t12{fill:#fff}.beside text{fill:#222}</style>\n";

/// The picture of a valid plan, so many pixels wide.
pub fn print(
    alloc: Global,
    instance: &Instance,
    plan: &Plan,
    width: u32,
    shown: Shown,
) -> Result<String, MemoryFault>
    requires valid { IsValid instance.now plan.now }
    requires least { least_width ≤ width }
    requires most { width ≤ most_width }
    ensures { IfOk result (λ text. string_bytes text ≡ picture_text instance.now plan.now width shown) }
{
    let canvas = canvas_of(instance, plan, width);
    let mut text = String::new(alloc);
    put_whole(alloc, &mut text, &canvas, instance, plan, shown)?;
    Ok(text)
}

/// Adds the whole of it, on these measures.
#[tactic(auto, unfolding(crate::specs::Picture::whole_text))]
fn put_whole(
    alloc: Global,
    text: &mut String,
    canvas: &Canvas,
    instance: &Instance,
    plan: &Plan,
    shown: Shown,
) -> Result<(), MemoryFault>
    requires sound { IsCanvas canvas.now }
    requires valid { IsValid instance.now plan.now }
    ensures { OnOk result (string_bytes text.new ≡ string_bytes text.old ++ whole_text canvas.now instance.now plan.now shown) }
{
    put_head(text, canvas, instance, plan)?;
    put_rows(text, canvas, instance)?;
    put_scale(text, canvas)?;
    put_delay(text, canvas, delay(instance, plan))?;
    put_lines(text, canvas, instance, plan)?;
    put_boxes(alloc, text, canvas, instance, plan, shown)?;
    put_limits(text, canvas, instance)?;
    Ok(())
}

/// Draws deadlines and the horizon over all others, and closes the picture.
#[tactic(auto, unfolding(crate::specs::Picture::limits_text))]
fn put_limits(text: &mut String, canvas: &Canvas, instance: &Instance) -> Result<(), AllocError>
    requires { IsCanvas canvas.now }
    ensures { OnOk result (string_bytes text.new ≡ string_bytes text.old ++ limits_text canvas.now instance.now) }
{
    put_deadlines(text, canvas, instance)?;
    put_horizon(text, canvas, instance)?;
    text.push_str("</svg>\n")
}

/// The numbers of a plan, in words.
#[derive(Clone, Copy)]
struct Figures {
    delay: u64,
    round: u64,
    cycle: u64,
}

impl fmt::Display for Figures {
    ghost output = { λ x. Some (figures_words x.delay x.round x.cycle) };

    #[tactic(auto, unfolding(crate::specs::Picture::figures_words))]
    fn fmt<W: fmt::Write>(&self, f: &mut fmt::Formatter<W>) -> fmt::Result {
        let (delay, round, cycle) = (self.delay, self.round, self.cycle);
        write!(f, "delay {delay}, round {round}, cycle {cycle} ticks")
    }
}

/// Those of this plan.
fn figures_of(canvas: &Canvas, instance: &Instance, plan: &Plan) -> Figures
    requires { IsValid instance.now plan.now }
    ensures delay { result.delay ≡ delay instance.now plan.now }
    ensures round { result.round ≡ round_length instance.now.cluster plan.now.caps }
    ensures cycle { result.cycle ≡ canvas.now.cycle }
{
    let layout = Layout::of(instance, plan.order.as_slice(), plan.caps.as_slice());
    Figures {
        delay: delay(instance, plan),
        round: layout.round_length(),
        cycle: canvas.cycle,
    }
}

/// Adds what begins the picture, with the numbers of the plan.
#[tactic(auto, unfolding(crate::specs::Picture::head_text))]
fn put_head(
    text: &mut String,
    canvas: &Canvas,
    instance: &Instance,
    plan: &Plan,
) -> Result<(), AllocError>
    requires { IsValid instance.now plan.now }
    ensures { OnOk result (string_bytes text.new ≡ string_bytes text.old ++ head_text canvas.now instance.now plan.now) }
{
    let figures = figures_of(canvas, instance, plan);
    put_front(text, canvas)?;
    put_title(text, figures)?;
    put_style(text)?;
    put_ground(text, canvas)?;
    put_caption(text, figures)
}

/// Adds what opens the picture, with its size.
#[tactic(auto, unfolding(crate::specs::Picture::front_text))]
fn put_front(text: &mut String, canvas: &Canvas) -> Result<(), AllocError>
    ensures { OnOk result (string_bytes text.new ≡ string_bytes text.old ++ front_text canvas.now) }
{
    let (width, height) = (canvas.width, canvas.height);
    writeln!(
        text,
        "<svg xmlns=\"http://www.w3.org/2000/svg\" width=\"{width}\" height=\"{height}\" viewBox=\"0 0 {width} {height}\">"
    )
}

/// Adds its title.
#[tactic(auto, unfolding(crate::specs::Picture::title_text))]
fn put_title(text: &mut String, figures: Figures) -> Result<(), AllocError>
    ensures { let words = figures_words figures.delay figures.round figures.cycle in
        OnOk result (string_bytes text.new ≡ string_bytes text.old ++ title_text words) }
{
    writeln!(text, "<title>{figures}</title>")
}

/// Adds how texts and shapes look.
#[tactic(auto, unfolding(crate::specs::Picture::style_text))]
fn put_style(text: &mut String) -> Result<(), AllocError>
    ensures { OnOk result (string_bytes text.new ≡ string_bytes text.old ++ style_text) }
{
    text.push_str(STYLE)
}

/// Adds its white ground.
#[tactic(auto, unfolding(crate::specs::Picture::ground_text))]
fn put_ground(text: &mut String, canvas: &Canvas) -> Result<(), AllocError>
    ensures { OnOk result (string_bytes text.new ≡ string_bytes text.old ++ ground_text canvas.now) }
{
    let (width, height) = (canvas.width, canvas.height);
    writeln!(
        text,
        "<rect width=\"{width}\" height=\"{height}\" fill=\"#fff\"/>"
    )
}

/// Writes the numbers of the plan at the top.
#[tactic(auto, unfolding(crate::specs::Picture::caption_text))]
fn put_caption(text: &mut String, figures: Figures) -> Result<(), AllocError>
    ensures { let words = figures_words figures.delay figures.round figures.cycle in
        OnOk result (string_bytes text.new ≡ string_bytes text.old ++ caption_text words) }
{
    writeln!(text, "<text x=\"8\" y=\"18\">{figures}</text>")
}

/// Draws the slots and the processes, at their ticks. What carries nothing has a white inside.
#[tactic(auto, unfolding(crate::specs::Picture::boxes_text))]
fn put_boxes(
    alloc: Global,
    text: &mut String,
    canvas: &Canvas,
    instance: &Instance,
    plan: &Plan,
    shown: Shown,
) -> Result<(), MemoryFault>
    requires { IsValid instance.now plan.now }
    ensures { OnOk result (string_bytes text.new ≡ string_bytes text.old ++ boxes_text canvas.now instance.now plan.now shown) }
{
    put_ticks(text, canvas)?;
    put_hollow_slots(alloc, text, canvas, instance, plan, shown)?;
    put_slots(alloc, text, canvas, instance, plan, Load::Messages)?;
    put_processes(text, canvas, instance, plan)?;
    text.push_str("</svg>\n")?;
    Ok(())
}

/// Opens the part whose units are ticks, from left to right.
#[tactic(auto, unfolding(crate::specs::Picture::ticks_text))]
fn put_ticks(text: &mut String, canvas: &Canvas) -> Result<(), AllocError>
    ensures { OnOk result (string_bytes text.new ≡ string_bytes text.old ++ ticks_text canvas.now) }
{
    let (across, height, cycle) = (canvas.across, canvas.height, canvas.cycle);
    writeln!(
        text,
        "<svg x=\"120\" width=\"{across}\" height=\"{height}\" viewBox=\"0 0 {cycle} {height}\" preserveAspectRatio=\"none\">"
    )
}

/// Draws the slots that carry nothing, with a white inside, where they are shown.
fn put_hollow_slots(
    alloc: Global,
    text: &mut String,
    canvas: &Canvas,
    instance: &Instance,
    plan: &Plan,
    shown: Shown,
) -> Result<(), MemoryFault>
    requires { IsValid instance.now plan.now }
    ensures { OnOk result (string_bytes text.new ≡ string_bytes text.old ++ hollow_text canvas.now instance.now plan.now shown) }
{
    match shown {
        Shown::Used => Ok(()),
        Shown::All => {
            put_slots(alloc, text, canvas, instance, plan, Load::Nothing)?;
            put_bands(text, canvas, instance)?;
            Ok(())
        }
    }
}
