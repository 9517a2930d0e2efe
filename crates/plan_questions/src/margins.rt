//! By how much longer may some processes run, all at once?

mod answer;
mod greatest;
mod laws;
mod margin_cut;

pub use answer::Margin;
pub use greatest::greatest_margin;
pub use laws::margins_have_certificate_texts;
