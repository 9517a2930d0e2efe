//! Which nodes of a tree stay, where decisions go that nothing below them uses?

ghost use Rattle.std.specs.Prelude.{◌≡◌, ◌+◌, length, IfSome};

use crate::levels::Levels;
use crate::path::Path;
use crate::reader::Reader;
use crate::tree_parts::{EnteredBranch, Part};
use certificate::{Branch, Node};
use std::alloc::Global;
use tt_choice::Decision;
use ttp_model::{Instance, Leaf, MemoryFault};

/// Which nodes stay.
#[derive(Drop)]
pub struct Staying {
    /// How many.
    pub count: usize,
    /// By node, the place to go on at; its own where the node stays.
    goes_on: Vec<usize>,
}

impl Staying {
    /// The place to go on at: this one, if its node stays.
    pub fn next(&self, k: usize) -> usize {
        if k < self.goes_on.len() {
            self.goes_on[k]
        } else {
            k
        }
    }
}

/// A pass over the nodes of a tree in preorder.
#[derive(Drop)]
struct Pass<'a> {
    path: Path<'a>,
    reader: Reader<'a>,
    /// The branches above the next node, the root first.
    above: Vec<EnteredBranch>,
    staying: Staying,
}

/// Which nodes stay, of a tree in preorder, where a subtree that was left is none. One pass. Such a subtree stays where nothing
/// beside it can do without it.
pub fn what_stays(
    alloc: Global,
    instance: &Instance,
    nodes: &[Option<&Node>],
) -> Result<Staying, MemoryFault> {
    let mut pass = Pass::new(alloc, instance, nodes.len())?;
    for k in 0..nodes.len() {
        match nodes[k] {
            Some(node) => pass.go_through(alloc, k, node)?,
            None => pass.leave(alloc, k)?,
        }
    }
    Ok(pass.staying)
}

impl<'a> Pass<'a> {
    /// In front of the root.
    fn new(alloc: Global, instance: &'a Instance, count: usize) -> Result<Pass<'a>, MemoryFault> {
        let mut goes_on = Vec::new(alloc);
        goes_on.reserve_exact(count)?;
        for k in 0..count {
            goes_on.push(k)?;
        }
        Ok(Pass {
            path: Path::new(alloc, instance)?,
            reader: Reader::new(alloc, instance)?,
            above: Vec::new(alloc),
            staying: Staying { count, goes_on },
        })
    }

    /// How many branches stand above the next node.
    fn depth(&self) -> u32 {
        self.above.len().min(u32::MAX as usize) as u32
    }

    /// Takes a node in.
    fn go_through(&mut self, alloc: Global, k: usize, node: &Node) -> Result<(), MemoryFault> {
        match node {
            Node::Branch(branch) => self.open(alloc, k, branch),
            Node::Leaf(leaf) => self.read(alloc, k, leaf),
        }
    }

    /// Takes a branch in: what comes next stands below it.
    fn open(&mut self, alloc: Global, k: usize, branch: &Branch) -> Result<(), MemoryFault> {
        let used = Levels::none_of(alloc, self.depth())?;
        let decision = self.path.first_decision(branch.kind);
        self.go_down(EnteredBranch {
            from: k,
            kind: branch.kind,
            left: branch.children,
            decision,
            to: k,
            stays: 1,
            used,
            free: None,
        })
    }

    /// Goes down from a branch to the child that is next.
    fn go_down(&mut self, branch: EnteredBranch) -> Result<(), MemoryFault> {
        let level = self.depth();
        if let Some(decision) = branch.decision {
            self.path.go_down(decision, level)?;
        }
        self.above.push(branch)?;
        Ok(())
    }

    /// Goes up to the next branch, if there is one.
    fn go_up(&mut self) -> Option<EnteredBranch>
        ensures { IfSome result (λ _. length self.new.above.items + 1 ≡ length self.old.above.items) }
    {
        let branch = self.above.pop()?;
        if branch.decision.is_some() {
            self.path.go_up();
        }
        Some(branch)
    }

    /// Takes a leaf in.
    fn read(&mut self, alloc: Global, k: usize, leaf: &Leaf) -> Result<(), MemoryFault> {
        let depth = self.depth();
        let used = self.reader.used_by(alloc, &self.path, leaf, depth)?;
        self.take_in(k, used)
    }

    /// Takes in a subtree that was left: nothing is known of what it uses.
    fn leave(&mut self, alloc: Global, k: usize) -> Result<(), MemoryFault> {
        let used = Levels::all_of(alloc, self.depth())?;
        self.take_in(k, used)
    }

    /// Takes in a node without children, and goes up to the branch that has another child.
    fn take_in(&mut self, k: usize, used: Levels) -> Result<(), MemoryFault> {
        let mut part = Part {
            from: k,
            to: k.saturating_add(1),
            stays: 1,
            used,
        };
        while let Some(open) = self.go_up() {
            let mut branch = open;
            let level = self.depth();
            branch.take(level, part);
            if branch.left > 0 {
                branch.decision = self.beside(&branch);
                return self.go_down(branch);
            }
            part = self.closed(branch);
        }
        self.staying.count = part.stays;
        Ok(())
    }

    /// What leads to the next child of a branch.
    fn beside(&self, branch: &EnteredBranch) -> Option<Decision> {
        self.path.decision_beside(branch.decision?)
    }

    /// What stays of a branch that was gone through: the child that doesn't use it, if there is one.
    fn closed(&mut self, branch: EnteredBranch) -> Part
        ensures { self.new.above ≡ self.old.above }
    {
        let EnteredBranch {
            from,
            kind,
            to,
            stays,
            used,
            free,
            ..
        } = branch;
        match free {
            Some(child) => {
                self.leave_out(from, child.from);
                self.leave_out(child.to, to);
                Part {
                    from,
                    to,
                    stays: child.stays,
                    used: child.used,
                }
            }
            None => Part {
                from,
                to,
                stays,
                used: self.path.used_with(kind, used),
            },
        }
    }

    /// Leaves out the nodes from one place up to another.
    fn leave_out(&mut self, from: usize, to: usize)
        ensures { self.new.above ≡ self.old.above }
    {
        if from < self.staying.goes_on.len() {
            self.staying.goes_on[from] = to;
        }
    }
}
