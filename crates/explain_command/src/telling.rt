//! What stands above all sentences: the line that a command without them would give.

ghost use Rattle.std.specs.Prelude.{◌≡◌, ◌++◌, OnOk, string_bytes};
ghost use Rattle.plan_commands.specs.Verdicts.{valid_line};
ghost use Rattle.explain_command.specs.Telling.{line_of};

use command_streams::Fault;
use std::alloc::AllocError;

/// Adds the line of a fault.
#[tactic(auto, unfolding(crate::specs::Telling::line_of))]
pub fn put_line(text: &mut String, fault: &Fault) -> Result<(), AllocError>
    ensures { OnOk result (string_bytes text.new ≡ string_bytes text.old ++ line_of fault.now) }
{
    writeln!(text, "{fault}")
}

/// Adds the line of a valid plan with this delay, in ticks.
pub fn put_valid_line(text: &mut String, delay: u32) -> Result<(), AllocError>
    ensures { OnOk result (string_bytes text.new ≡ string_bytes text.old ++ valid_line delay) }
{
    writeln!(text, "valid {delay}")
}
