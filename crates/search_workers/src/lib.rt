//! A search as it stands, the turns that one thread or a worker of a pool makes of what is open in it, and what its end says.
#![tactic(auto)]

mod aims;
mod ends;
mod found;
mod gate;
mod job;
mod laws;
mod level;
mod outcome;
mod report;
mod rising;
mod rounds;
mod run;
mod search;
mod site;
mod together;
mod turn;
mod worker;

pub use aims::{Aims, goal_of};
pub use branch_tree::{
    Agenda, Name, Piece, Task, Workbench, Worked, close_left_by, is_closed_below, root_bound,
    work_on,
};
pub use ends::{answer, cause};
pub use found::{FoundPlan, better};
pub use gate::{FreeGate, Gate};
pub use job::Job;
pub use laws::spared_tasks_have_no_plan;
pub use outcome::{MOST_WORKERS, Options, Outcome, SolveFault, Why};
pub use report::{Ending, Report, Rest};
pub use rounds::Team;
pub use search::{Search, aim, limit};
pub use search_trees::{
    GatherFault, child_tasks, gather, gather_whole, gathered_certificates_have_texts,
    leaves_close_a_tree, names_make_one_tree, whole_trees_prove,
};
pub use site::{Course, Site};
pub use steal_pool::{Hand, Searched, drain, pool};
pub use used_decisions::{Manner, usual_manner};
pub use worker::{run_worker, run_worker_in};
