//! Which text is handed out for an instance?

ghost use Rattle.std.specs.Prelude.{Ok, IfOk};
ghost use Rattle.instance_text.specs.Faults.{States};

use instance_text::{PrintFault, print};
use std::alloc::Global;
use ttp_model::Instance;

/// A text that is handed out states the instance, with all its messages: it was read again.
pub fn text_that_is_handed_out_states_its_instance(
    alloc: Global,
    instance: &Instance,
) -> Result<Vec<u8>, PrintFault>
    ensures { IfOk result (λ text. States text.items (Ok instance.now)) }
{
    print(alloc, instance)
}
