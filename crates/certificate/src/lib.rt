//! Certificates as text, both ways.
#![tactic(auto)]

mod block;
mod branch;
mod cert;
mod fault;
mod head;
mod laws;
mod limits;
mod low;
mod many_lines;
mod node;
mod nodes;
mod numbers;
mod pieces;
mod printing;
mod reader_lines;
mod reading;
mod ring;
mod slice_lines;
mod source;
mod steps;
mod stream;
mod version;

pub use branch::Branch;
pub use cert::Cert;
pub use fault::{CertTextError, LineFault, SourceFault};
pub use head::Head;
pub use laws::{
    nodes_in_preorder_are_the_trees, reading_gives_one_answer, spelling_is_of_one_certificate,
    versions_allow_their_trees,
};
pub use limits::{MOST_BRANCHES_ABOVE, MOST_TEXT_BYTES};
pub use node::Node;
pub use pieces::read_steps;
pub use printing::print;
pub use reading::read;
pub use stream::CertStream;
pub use ttp_model::MemoryFault;
pub use version::Version;
