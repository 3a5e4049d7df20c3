// A set of tasks (§2.13), held as one number: whether a task is in it, the set with a task more, the set without those of another.
ghost use Rattle.std.specs.Prelude.{◌≡◌, ◌&&◌, ◌||◌, not, ℕ, ◌<◌, eqb, bit_or};
ghost use Rattle.memory.specs.Lists as spec;
ghost use Rattle.memory.specs.Pieces.{most_tasks, no_tasks, task_set};

// Every number is a set, and a clause names it. There is no `impl Model`: what holds a value with a model is not copied.
#[derive(Clone, Copy, PartialEq, Eq)]
pub struct TaskSet {
    pub bits: u32,
}

// §3.4: a set as it stands in a task's row, and back.
impl From<u32> for TaskSet {
    ghost from_gives = { λ bits set. set ≡ task_set bits };

    fn from(bits: u32) -> TaskSet {
        TaskSet { bits }
    }
}

impl From<TaskSet> for u32 {
    ghost from_gives = { λ set bits. bits ≡ set.bits };

    fn from(set: TaskSet) -> u32 {
        set.bits
    }
}

impl TaskSet {
    pub fn none() -> TaskSet
        ensures { result ≡ no_tasks }
    {
        TaskSet { bits: 0 }
    }

    pub fn is_none(self) -> bool
        ensures { result ≡ eqb self.bits 0 }
    {
        self.bits == 0
    }

    // Whether a task is in the set.
    #[tactic(auto, using(crate::proofs::Bits::has_tested))]
    pub fn has(self, task: usize) -> bool
        requires { task < most_tasks }
        ensures { result ≡ spec.has self.bits task }
    {
        self.bits >> task as u32 & 1 == 1
    }

    // The set with the task in it.
    #[tactic(auto, using(crate::proofs::Bits::has_with))]
    pub fn with(self, task: usize) -> TaskSet
        requires { task < most_tasks }
        ensures { (w : ℕ) → spec.has result.bits w ≡ (eqb w task || spec.has self.bits w) }
    {
        let one: u32 = 1;
        TaskSet {
            bits: self.bits | one << task as u32,
        }
    }

    // The set with those of another.
    pub fn with_all(self, others: TaskSet) -> TaskSet
        ensures { result ≡ task_set (bit_or self.bits others.bits) }
    {
        TaskSet {
            bits: self.bits | others.bits,
        }
    }

    // The set without those of another. Its number, like that of every set, has 32 bits.
    #[tactic(auto, using(crate::proofs::Bits::has_without))]
    pub fn without(self, others: TaskSet) -> TaskSet
        ensures left { (w : ℕ) → spec.has result.bits w ≡ (spec.has self.bits w && not (spec.has others.bits w)) }
        ensures short { (self.bits < 4294967296) × (result.bits < 4294967296) }
    {
        let both = self.bits & others.bits;
        TaskSet {
            bits: self.bits ^ both,
        }
    }
}
