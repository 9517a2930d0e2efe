//! Which leaves wait to be judged together?

ghost use Rattle.std.specs.Prelude.{◌≡◌, [], ◌∷◌, ◌<◌, ◌++◌, IfOk, IsFalse, OnErr, OnOk, length, max};
ghost use Rattle.tt_choice.specs.Choice.{bare};

use certificate::Version;
use std::alloc::Global;
use std::mem;
use tt_choice::Choice;
use ttp_model::MemoryFault;

/// However few leaves wait, they are judged once their steps have so many bytes. Twice as many leaves may be there at once.
/// A limit, not tuned.
const MOST_BYTES: usize = 8_388_608;

/// How many leaves wait at first until they are judged: soon, so that other threads needn't wait for long. 32,
/// 128 and 256 take as long.
const FIRST_TOGETHER: usize = 64;

/// How large the memory of a text may be that is kept for others. A limit, not tuned.
const MOST_KEPT: usize = 4_096;

/// A leaf that waits, with the choice that it stands at, the version of its text and its line. Its steps aren't read yet: their lines are there.
#[derive(Drop)]
pub struct HeldLeaf {
    pub choice: Choice,
    pub version: Version,
    pub goal: u32,
    pub count: u32,
    pub line: u64,
    pub steps: Vec<u8>,
}

/// Leaves that wait, up to the most that may.
#[derive(Drop)]
pub struct HeldLeaves {
    leaves: Vec<HeldLeaf>,
    most: usize,
    /// How many are judged together, twice as many each time, up to the most.
    together: usize,
    /// How many bytes their steps have.
    bytes: usize,
    /// What is of no use but for its memory, since to take that anew for each leaf would be much of the time: choices, and texts.
    spares: Vec<Choice>,
    texts: Vec<Vec<u8>>,
}

impl HeldLeaves {
    /// None waits yet, and no more than this many ever will, but for one.
    pub fn new(alloc: Global, most: usize) -> HeldLeaves
        ensures none { result.leaves.items ≡ [] }
        ensures most { result.most ≡ max most 1 }
    {
        HeldLeaves {
            leaves: Vec::new(alloc),
            most: most.max(1),
            together: FIRST_TOGETHER,
            bytes: 0,
            spares: Vec::new(alloc),
            texts: Vec::new(alloc),
        }
    }

    /// The leaves that wait.
    pub fn as_slice(&self) -> &[HeldLeaf]
        ensures { result.now ≡ self.now.leaves.items }
    {
        self.leaves.as_slice()
    }

    /// Whether as many wait as are judged together.
    pub fn is_full(&self) -> bool
        ensures { IsFalse result → length self.now.leaves.items < self.now.most }
    {
        self.leaves.len() >= self.most.min(self.together) || self.bytes >= MOST_BYTES
    }

    /// The same choice with no decision kept, in memory of its own.
    pub fn choice_like(&mut self, alloc: Global, choice: &Choice) -> Result<Choice, MemoryFault>
        ensures choice { IfOk result (λ like. like ≡ bare choice.now) }
        ensures leaves { self.new.leaves ≡ self.old.leaves }
        ensures most { self.new.most ≡ self.old.most }
    {
        let Some(spare) = self.spares.pop() else {
            let like = choice.copy(alloc)?;
            return Ok(like);
        };
        let mut like = spare.bare();
        like.set_to(choice)?;
        Ok(like)
    }

    /// Takes a text away, and leaves any other in its place.
    pub fn text_of(&mut self, alloc: Global, text: &mut Vec<u8>) -> Vec<u8>
        ensures text { result ≡ text.old }
        ensures leaves { self.new.leaves ≡ self.old.leaves }
        ensures most { self.new.most ≡ self.old.most }
    {
        let other = match self.texts.pop() {
            Some(other) => other,
            None => Vec::new(alloc),
        };
        mem::replace(text, other)
    }

    /// Lets a leaf wait with the others.
    pub fn push(&mut self, leaf: HeldLeaf) -> Result<(), MemoryFault>
        ensures held { OnOk result (self.new.leaves.items ≡ self.old.leaves.items ++ leaf ∷ []) }
        ensures kept { OnErr result (self.new.leaves.items ≡ self.old.leaves.items) }
        ensures most { self.new.most ≡ self.old.most }
    {
        self.bytes = self.bytes.saturating_add(leaf.steps.as_slice().len());
        self.leaves.push(leaf)?;
        Ok(())
    }

    /// Keeps the memory of a leaf that waits no more.
    fn keep(&mut self, leaf: HeldLeaf) -> Result<(), MemoryFault>
        ensures leaves { self.new.leaves ≡ self.old.leaves }
        ensures most { self.new.most ≡ self.old.most }
    {
        self.spares.push(leaf.choice)?;
        if leaf.steps.capacity() <= MOST_KEPT {
            self.texts.push(leaf.steps)?;
        }
        Ok(())
    }

    /// Hands the leaves that wait over, and lets none wait. The memory of those that were handed over before is kept.
    pub fn hand_over(&mut self, front: &mut Vec<HeldLeaf>) -> Result<(), MemoryFault>
        ensures most { self.new.most ≡ self.old.most }
        ensures empty { OnOk result (self.new.leaves.items ≡ []) }
        ensures front { OnOk result (front.new.items ≡ self.old.leaves.items) }
    {
        self.bytes = 0;
        self.together = self.together.saturating_mul(2).min(self.most);
        mem::swap(&mut self.leaves, front);
        'leaves: while let Some(leaf) = self.leaves.pop() {
            self.keep(leaf)?;
        }
        Ok(())
    }
}
