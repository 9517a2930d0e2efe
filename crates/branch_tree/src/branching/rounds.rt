//! Where is a range of rounds cut?

ghost use Rattle.std.specs.Prelude.{◌≡◌, ◌<◌, length};
ghost use Rattle.tt_choice.specs.Choice.{IsChoice, least_round, greatest_round};
ghost use Rattle.branch_tree.specs.Branching.{IsBranching};

use tt_choice::Choice;
use tt_infer::Facts;
use ttp_model::{Instance, Kind};

/// The branch that halves the range of a message.
pub fn halved(instance: &Instance, choice: &Choice, m: u32) -> Kind
    requires of { IsChoice instance.now choice.now }
    requires message { m < length instance.now.messages }
    requires open { least_round choice.now m < greatest_round choice.now m }
    ensures { IsBranching instance.now choice.now result }
{
    let _messages = instance.messages();
    let lo = choice.lo(m);
    let cut = (choice.hi(m) - lo - 1) / 2;
    Kind::Round(m, lo + cut)
}

/// Whether a message is known to be sent in one of these halves.
pub fn is_in_one_half(instance: &Instance, choice: &Choice, facts: &Facts, m: u32) -> bool
    requires of { IsChoice instance.now choice.now }
    requires facts { facts.now.instance ≡ instance.now }
    requires message { m < length instance.now.messages }
    requires open { least_round choice.now m < greatest_round choice.now m }
{
    let _messages = instance.messages();
    let lo = choice.lo(m);
    let cut = lo + (choice.hi(m) - lo - 1) / 2;
    cut < facts.lo(m) || facts.top(m) <= cut
}
