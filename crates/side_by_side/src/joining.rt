//! Which tree do certificates of one instance make together?

ghost use Rattle.std.specs.Prelude.{◌≡◌, [], ◌<◌, ◌≤◌, ℕ, Bool, IsTrue, IfErr, IfOk, OnOk, IfSome, IfNone, length, Some, None};
ghost use Rattle.ttp_model.specs.declared.step.Leaf.{Leaf};
ghost use Rattle.tt_infer.specs.Leaves.{ClosesLeaf};
ghost use Rattle.certificate.specs.declared.node.Node.TheVariants as node;
ghost use Rattle.certificate.specs.Trees.{IsTree, trees_of};
ghost use Rattle.tt_choice.specs.Choice.{IsChoice, bare};
ghost use Rattle.tree_check.specs.Proofs.{Proves};
ghost use Rattle.side_by_side.specs.declared.fault.JoinFault.TheVariants.{OutOfMemory};
ghost use Rattle.side_by_side.specs.Bounds.{IsGreatestBound, IsRight};
ghost use Rattle.side_by_side.specs.Faults.{IsJoinFault, IsNodeAt};
ghost use Rattle.side_by_side.specs.Joined.{IsBest, IsJoinedTree, certificate_at, own_trees};
ghost use Rattle.side_by_side.specs.Found.{side_at};
ghost use Rattle.side_by_side.specs.Standing.{StandsAs};
ghost use Rattle.side_by_side.specs.Steps.{FindsBest, FindsLeader, IsAtPlaceOf, IsFewer, IsHereOf, IsJoiningOf, IsJoiningWith, IsStep, KnowsBest, KnowsLeader, work_of};

use crate::fault::JoinFault;
use crate::frame::{Frame, NodePlace};
use crate::low::lowest;
use crate::passing::{followers, pass_all};
use crate::side::{Compared, Side, first_greatest, passed_of};
use crate::standing::{PlacedLeaf, leaf_here};
use crate::telling::{branch_at, goal_of, leaf_at, told};
use certificate::{Cert, Node, Version};
use std::alloc::Global;
use tree_check::{Walk, judge_leaf};
use tt_infer::Facts;
use ttp_model::{Instance, Leaf, MemoryFault};

/// Where the join of certificates stands: the choice of the next place, how far each certificate is passed, which places are still to
/// come, and the nodes that were made.
#[derive(Drop)]
pub struct Joining<'a> {
    instance: &'a Instance,
    certs: &'a [Cert],
    walk: Walk,
    sides: Vec<Side>,
    frames: Vec<Frame>,
    nodes: Vec<Node>,
}

impl<'a> Joining<'a> {
    /// In front of the first place.
    pub fn new(
        alloc: Global,
        instance: &'a Instance,
        certs: &'a [Cert],
        sides: Vec<Side>,
    ) -> Result<Joining<'a>, MemoryFault>
        requires some { 0 < length certs.now }
        requires trees { (k : ℕ) → k < length certs.now → IsTree (own_trees certs.now k) }
        requires count { length sides.items ≡ length certs.now }
        requires each { (k : ℕ) → k < length certs.now → side_at sides.items k ≡ record { passed = 0; level = 0 } }
        ensures instance { IfOk result (λ joining. joining.instance.now ≡ instance.now) }
        ensures certs { IfOk result (λ joining. joining.certs.now ≡ certs.now) }
        ensures joining { IfOk result IsJoiningOf }
    {
        let _nodes = instance.nodes();
        let walk = Walk::new(alloc, instance)?;
        let mut frames = Vec::new(alloc);
        frames.push(Frame {
            due: 1,
            above: None,
        })?;
        Ok(Joining {
            instance,
            certs,
            walk,
            sides,
            frames,
            nodes: Vec::new(alloc),
        })
    }

    /// The nodes that were made.
    pub fn into_nodes(self) -> Vec<Node>
        ensures { result ≡ self.entry.nodes }
    {
        self.nodes
    }

    /// Goes on below the branch of a certificate, which leads; the best leaf goes down.
    fn lead(
        &mut self,
        alloc: Global,
        frame: Frame,
        k: usize,
        best: Option<NodePlace>,
    ) -> Result<(), JoinFault>
        requires { (at : IsHereOf self.old frame) × (judged : Bool) × KnowsBest self.old frame at best judged × KnowsLeader self.old frame at k }
        ensures step { IsStep self.old self.new }
        ensures joining { OnOk result (IsJoiningOf self.new) }
        ensures fewer { OnOk result (IsFewer self.old self.new) }
        ensures fault { IfErr result (IsJoinFault self.old.instance.now self.old.certs.now) }
    {
        let place = passed_of(self.sides.as_slice(), k);
        let spot = NodePlace {
            certificate: k,
            node: place,
        };
        let branch = branch_at(self.certs, spot);
        match self.walk.branch(alloc, self.instance, &branch, 0) {
            Ok(()) => {}
            Err(fault) => return Err(told(self.certs, k, place, fault)),
        }
        let depth = self.frames.as_slice().len();
        let flags = followers(
            alloc,
            self.certs,
            self.sides.as_slice(),
            depth,
            Some(branch),
        )?;
        pass_all(
            self.certs,
            self.sides.as_mut_slice(),
            depth,
            flags.as_slice(),
        );
        self.frames.push(frame.less())?;
        self.frames.push(Frame {
            due: branch.children,
            above: best,
        })?;
        self.nodes.push(Node::Branch(branch))?;
        Ok(())
    }

    /// Goes on behind the place, where no branch leads and the best leaf stands as this one.
    fn stand_as(&mut self, alloc: Global, frame: Frame, leaf: Leaf) -> Result<(), MemoryFault>
        requires { (at : IsHereOf self.old frame) × (best : Leaf) × IsBest (length self.old.certs.now) at.group.above at.group.at (Some best)
            × FindsLeader self.old frame at None × StandsAs self.old.instance.now (bare self.old.walk.choice) best leaf }
        ensures step { IsStep self.old self.new }
        ensures joining { OnOk result (IsJoiningOf self.new) }
        ensures fewer { OnOk result (IsFewer self.old self.new) }
    {
        let depth = self.frames.as_slice().len();
        let flags = followers(alloc, self.certs, self.sides.as_slice(), depth, None)?;
        pass_all(
            self.certs,
            self.sides.as_mut_slice(),
            depth,
            flags.as_slice(),
        );
        self.frames.push(frame.less())?;
        self.nodes.push(Node::Leaf(leaf))?;
        Ok(())
    }

    /// Lets the best leaf stand, where no branch leads.
    fn stand_alone(
        &mut self,
        alloc: Global,
        room: Facts<'a>,
        frame: Frame,
        spot: NodePlace,
        judged: bool,
    ) -> Result<Facts<'a>, JoinFault>
        requires at { (at : IsHereOf self.old frame) × KnowsBest self.old frame at (Some spot) judged × FindsLeader self.old frame at None }
        requires room { room.instance ≡ self.old.instance.now }
        ensures room { IfOk result (λ room. room.instance ≡ self.old.instance.now) }
        ensures step { IsStep self.old self.new }
        ensures joining { OnOk result (IsJoiningOf self.new) }
        ensures fewer { OnOk result (IsFewer self.old self.new) }
        ensures fault { IfErr result (λ fault. fault ≡ OutOfMemory) }
    {
        let leaf = leaf_at(self.certs, spot);
        let standing = leaf_here(alloc, room, self.walk.choice(), leaf, judged)?;
        let PlacedLeaf { room, leaf } = standing;
        match self.stand_as(alloc, frame, leaf) {
            Ok(()) => Ok(room),
            Err(_) => {
                drop(room);
                Err(JoinFault::OutOfMemory)
            }
        }
    }

    /// Goes on from a place, where this leaf is the best one, or none is, and this certificate's branch leads, or none does.
    fn go_on(
        &mut self,
        alloc: Global,
        room: Facts<'a>,
        frame: Frame,
        best: (Option<NodePlace>, bool),
        leads: Option<usize>,
    ) -> Result<Facts<'a>, JoinFault>
        requires at { (at : IsHereOf self.old frame) × KnowsBest self.old frame at best.0 best.1 × FindsLeader self.old frame at leads }
        requires room { room.instance ≡ self.old.instance.now }
        ensures room { IfOk result (λ room. room.instance ≡ self.old.instance.now) }
        ensures step { IsStep self.old self.new }
        ensures joining { OnOk result (IsJoiningOf self.new) }
        ensures fewer { OnOk result (IsFewer self.old self.new) }
        ensures fault { IfErr result (IsJoinFault self.old.instance.now self.old.certs.now) }
    {
        match leads {
            Some(k) => match self.lead(alloc, frame, k, best.0) {
                Ok(()) => Ok(room),
                Err(fault) => {
                    drop(room);
                    Err(fault)
                }
            },
            None => match best.0 {
                Some(spot) => self.stand_alone(alloc, room, frame, spot, best.1),
                None => unreachable!(),
            },
        }
    }

    /// Judges the leaf of a certificate that stands at this place.
    fn judge<'b>(&self, room: Facts<'b>, spot: NodePlace) -> Result<Facts<'b>, JoinFault>
        requires at { (leaf : Leaf) × IsNodeAt self.now.instance.now self.now.certs.now spot.certificate spot.node (bare self.now.walk.choice) (node.Leaf leaf) }
        requires choice { IsChoice self.now.instance.now self.now.walk.choice }
        requires room { room.instance ≡ self.now.instance.now }
        ensures room { IfOk result (λ same. same.instance ≡ self.now.instance.now) }
        ensures closes { OnOk result ((leaf : Leaf) → IsNodeAt self.now.instance.now self.now.certs.now spot.certificate spot.node (bare self.now.walk.choice) (node.Leaf leaf)
            → ClosesLeaf self.now.instance.now (bare self.now.walk.choice) leaf) }
        ensures fault { IfErr result (IsJoinFault self.now.instance.now self.now.certs.now) }
    {
        let leaf = leaf_at(self.certs, spot);
        match judge_leaf(
            room,
            0,
            self.walk.choice(),
            leaf.goal,
            leaf.steps.as_slice(),
            0,
        ) {
            Ok(room) => Ok(room),
            Err(fault) => Err(told(self.certs, spot.certificate, spot.node, fault)),
        }
    }

    /// Goes to the next place of a frame, and on from there.
    fn place(
        &mut self,
        alloc: Global,
        room: Facts<'a>,
        frame: Frame,
    ) -> Result<Facts<'a>, JoinFault>
        requires at { IsAtPlaceOf self.old frame }
        requires room { room.instance ≡ self.old.instance.now }
        ensures room { IfOk result (λ room. room.instance ≡ self.old.instance.now) }
        ensures step { IsStep self.old self.new }
        ensures joining { OnOk result (IsJoiningOf self.new) }
        ensures fewer { OnOk result (IsFewer self.old self.new) }
        ensures fault { IfErr result (IsJoinFault self.old.instance.now self.old.certs.now) }
    {
        match self.walk.go_on(alloc, self.instance) {
            Ok(()) => {}
            Err(_) => {
                drop(room);
                return Err(JoinFault::OutOfMemory);
            }
        }
        let depth = self.frames.as_slice().len();
        let above = goal_of(self.certs, frame.above);
        let sides = self.sides.as_slice();
        let own = first_greatest(self.certs, sides, depth, Compared::Goals, above);
        let leads = first_greatest(self.certs, sides, depth, Compared::Bounds, None);
        match own {
            Some(k) => {
                let spot = NodePlace {
                    certificate: k,
                    node: passed_of(sides, k),
                };
                let room = self.judge(room, spot)?;
                self.go_on(alloc, room, frame, (Some(spot), true), leads)
            }
            None => self.go_on(alloc, room, frame, (frame.above, false), leads),
        }
    }

    /// Goes on from the next place of a frame, if one is left there.
    fn go_over(
        &mut self,
        alloc: Global,
        room: Facts<'a>,
        frame: Frame,
    ) -> Result<Facts<'a>, JoinFault>
        requires joining { IsJoiningWith self.old frame }
        requires room { room.instance ≡ self.old.instance.now }
        ensures room { IfOk result (λ room. room.instance ≡ self.old.instance.now) }
        ensures step { IsStep self.old self.new }
        ensures joining { OnOk result (IsJoiningOf self.new) }
        ensures less { OnOk result (work_of self.new ≤ work_of self.old) }
        ensures fault { IfErr result (IsJoinFault self.old.instance.now self.old.certs.now) }
    {
        if frame.due > 0 {
            self.place(alloc, room, frame)
        } else {
            Ok(room)
        }
    }

    /// Goes on from all places that are still to come.
    pub fn places(&mut self, alloc: Global) -> Result<(), JoinFault>
        requires { IsJoiningOf self.old }
        ensures step { IsStep self.old self.new }
        ensures joining { OnOk result (IsJoiningOf self.new) }
        ensures all { OnOk result (self.new.frames.items ≡ []) }
        ensures fault { IfErr result (IsJoinFault self.old.instance.now self.old.certs.now) }
    {
        let mut room = Facts::new(alloc, self.instance, self.walk.choice(), 0)?;
        'places: while let Some(frame) = self.frames.pop() {
            room = self.go_over(alloc, room, frame)?;
        }
        drop(room);
        Ok(())
    }
}
