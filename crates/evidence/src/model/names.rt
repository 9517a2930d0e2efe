//! Names of an instance's parts, and the indices of names.

ghost use Rattle.std.specs.Prelude.{◌≡◌, [], Some};

use ttp_model::{Instance, Part};

/// Behind the last node nothing has a name.
pub fn name_past_the_last_node(instance: &Instance) -> &[u8]
    ensures { result.now ≡ [] }
{
    instance.node_name(instance.nodes().len()).as_bytes()
}

/// The name of the first process is the first process's.
pub fn index_of_the_first_name(instance: &Instance) -> Option<u32>
    ensures { result ≡ Some 0 }
{
    let _processes = instance.processes();
    let name = instance.name_in(Part::Processes, 0);
    instance.index_named(Part::Processes, name)
}
