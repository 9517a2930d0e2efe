//! Do more processes run in a span, or more bytes go in some rounds, than there is room for?

ghost use Rattle.std.specs.Prelude.{◌≡◌, ◌≤◌, ◌<◌, ◌↔◌, length, IsTrue, IsFalse};
ghost use Rattle.ttp_model.specs.declared.step.Step.TheVariants.{XLoad, XFrames, XChannel};
ghost use Rattle.ttp_model.specs.declared.limits.TheConstants.{MOST_TICKS};
ghost use Rattle.ttp_model.specs.Totals.{total};
ghost use Rattle.sought_plans.specs.Premises.{load_within};
ghost use Rattle.tt_infer.specs.Setting.{TakesOf};
ghost use Rattle.tt_infer.specs.Table.{HasHalf};
ghost use Rattle.sought_plans.specs.Known.{Fits};

use crate::fault::StepFault;
use sought_plans::{Known, Setting, bytes_in_frames, bytes_on_channel};
use ttp_model::Instance;

/// How long process `p` runs on node `n` from `a` to `b`: 0 where it is another's, starts earlier or
/// ends later.
fn load_within(known: &Known, instance: &Instance, n: u32, a: u32, b: u32, p: u32) -> u64
    requires fits { Fits instance.now known.now }
    requires process { p < length instance.now.processes }
    ensures value { result ≡ load_within instance.now known.now n a b p }
    ensures bound { result ≤ MOST_TICKS }
{
    let process = instance.process_at(p as usize);
    if process.node == n && a <= known.es(p) && known.le(p) <= b {
        u64::from(process.wcet)
    } else {
        0
    }
}

/// How long processes run on node `n` from `a` to `b`. One pass over its processes.
pub fn load_of(known: &Known, instance: &Instance, n: u32, a: u32, b: u32) -> u64
    requires { Fits instance.now known.now }
    ensures { result ≡ total (load_within instance.now known.now n a b) (length instance.now.processes) }
{
    let mut sum = 0;
    for p in instance.processes_on(n) {
        sum += load_within(known, instance, n, a, b, *p);
    }
    sum
}

/// The processes that run on a node in a span run longer than it.
pub fn x_load(known: &mut Known, setting: &Setting, n: u32, a: u32, b: u32) -> Result<(), StepFault>
    requires fits { Fits setting.now.instance known.old }
    requires open { IsFalse known.old.closed }
    ensures { TakesOf setting.now known.old (XLoad n a b) known.new result }
{
    if n as usize >= setting.instance().nodes().len() {
        return Err(StepFault::NoSuchIndex);
    }
    if b < a || load_of(known, setting.instance(), n, a, b) <= u64::from(b - a) {
        return Err(StepFault::NoPremise);
    }
    known.close(setting.instance());
    Ok(())
}

/// The messages that a node sends in some rounds are more than its frames can carry, on all channels.
pub fn x_frames(
    known: &mut Known,
    setting: &Setting,
    n: u32,
    a: u32,
    b: u32,
) -> Result<(), StepFault>
    requires fits { Fits setting.now.instance known.old }
    requires open { IsFalse known.old.closed }
    ensures { TakesOf setting.now known.old (XFrames n a b) known.new result }
{
    let instance = setting.instance();
    if n as usize >= instance.nodes().len() {
        return Err(StepFault::NoSuchIndex);
    }
    if b < a {
        return Err(StepFault::NoPremise);
    }
    let frames = u64::from(b - a) * u64::from(setting.cap_most(n));
    let room = u64::from(instance.cluster().channels) * frames;
    if bytes_in_frames(known, setting, n, a, b) <= room {
        return Err(StepFault::NoPremise);
    }
    known.close(instance);
    Ok(())
}

/// Whether node `n` is there, and its frames have a half on channel `k` beside another.
fn has_half(instance: &Instance, n: u32, k: u32) -> bool
    ensures { IsTrue result ↔ HasHalf instance.now n k }
{
    let channels = instance.cluster().channels;
    (n as usize) < instance.nodes().len() && channels >= 2 && k < channels
}

/// Those that are fixed to channel `k` are more than its frames can carry there.
pub fn x_channel(
    known: &mut Known,
    setting: &Setting,
    k: u32,
    n: u32,
    a: u32,
    b: u32,
) -> Result<(), StepFault>
    requires fits { Fits setting.now.instance known.old }
    requires open { IsFalse known.old.closed }
    ensures { TakesOf setting.now known.old (XChannel k n a b) known.new result }
{
    if !has_half(setting.instance(), n, k) {
        return Err(StepFault::NoSuchIndex);
    }
    if b < a {
        return Err(StepFault::NoPremise);
    }
    let room = u64::from(b - a) * u64::from(setting.cap_most(n));
    if bytes_on_channel(known, setting, k, n, a, b) <= room {
        return Err(StepFault::NoPremise);
    }
    known.close(setting.instance());
    Ok(())
}
