//! Does a link lead from one process to another?

ghost use Rattle.std.specs.Prelude.{◌↔◌, IsTrue};
ghost use Rattle.ttp_model.specs.Graph.{HasLink};

use crate::instance::Instance;

/// Whether a link leads from process `p` to process `q`: not so where one isn't there. One pass over
/// the links from `p`.
pub fn has_link(instance: &Instance, p: u32, q: u32) -> bool
    ensures { IsTrue result ↔ HasLink instance.now p q }
{
    for l in instance.links_from(p) {
        if instance.link_at(*l as usize).after == q {
            return true;
        }
    }
    false
}
