//! What a run of the evaluator works in.

ghost use Rattle.std.specs.Prelude.{◌≡◌, ◌+◌, ◌<◌, ◌≤◌, ◌++◌, ◌∷◌, [], IfSome, IfNone, IsOk, OnOk, length, take, replicate, slice_set, slice_index_or, List, Some, None};
ghost use Rattle.node_store.specs.Remembering.{IsBlank, IsOf, IsRecalled, Remembers};
ghost use Rattle.node_store.specs.declared.operator.Frame.{Frame as FrameOf};

use crate::answers::{Answer, blank, grown, look_up, write};
use crate::operator::{Frame, Task, Wait};
use edge_bits::{Edge, Memory};
use smallvec::SmallVec;
use std::alloc::Global;
use std::marker::Model;

/// The frames of the tasks that wait, a lossy table of the present call's answers, which grows with them, and a mark for
/// each level.
#[derive(Drop)]
pub struct Stack {
    frames: SmallVec<Frame, 2>,
    answers: Vec<Option<Answer>>,
    /// How many places of the table were taken.
    taken: usize,
    marks: Vec<Option<u32>>,
}

impl Model for Stack {
    ghost use Rattle.std.specs.Prelude.{◌-◌, ◌≤◌, length};
    ghost use Rattle.node_store.specs.Stacks.{Scratch};

    ghost Value = { Scratch };

    ghost view = { λ s. record { frames = s.frames.items; free = s.frames.capacity - length s.frames.items; answers = s.answers.items; marks = s.marks.items } };

    ghost invariant = { λ s. length s.frames.items ≤ s.frames.capacity };
}

impl Stack {
    ghost use Rattle.node_store.specs.Stacks.{levels_in, room_of};

    /// No frame, with the room for a few, no table and no marks.
    pub fn new(alloc: Global) -> Stack
        ensures frames { result.frames ≡ [] }
        ensures answers { result.answers ≡ [] }
        ensures marks { result.marks ≡ [] }
    {
        Stack {
            frames: SmallVec::new(alloc),
            answers: Vec::new(alloc),
            taken: 0,
            marks: Vec::new(alloc),
        }
    }

    /// Where it takes its memory.
    pub fn allocator(&self) -> Global {
        *self.frames.allocator()
    }

    /// How many frames wait.
    pub fn len(&self) -> usize
        ensures { result ≡ length self.now.frames }
    {
        self.frames.len()
    }

    /// Makes room for a run over so many levels: two frames more and a mark for each. Its room never gets less.
    pub fn prepare(&mut self, levels: u32) -> Result<(), Memory>
        ensures ok { OnOk result (levels ≤ levels_in self.new) }
        ensures succeeds { levels ≤ levels_in self.old → IsOk result }
        ensures least { levels_in self.old ≤ levels_in self.new }
        ensures frames { self.new.frames ≡ self.old.frames }
        ensures answers { self.new.answers ≡ self.old.answers }
    {
        self.frames.reserve(2 * levels as usize)?;
        if self.marks.len() < levels as usize {
            self.marks.resize(levels as usize, None)?;
        }
        Ok(())
    }

    /// Adds a frame at the top.
    pub fn push(&mut self, frame: Frame)
        requires { 0 < self.old.free }
        ensures frames { self.new.frames ≡ self.old.frames ++ frame ∷ [] }
        ensures free { self.new.free + 1 ≡ self.old.free }
        ensures answers { self.new.answers ≡ self.old.answers }
        ensures marks { self.new.marks ≡ self.old.marks }
    {
        let Frame {
            task,
            var,
            flip,
            wait,
        } = frame;
        self.frames.push_reserved(Frame {
            task,
            var,
            flip,
            wait,
        });
    }

    /// The frame at the top.
    pub fn top(&self) -> Option<Frame>
        ensures some { IfSome result (λ frame. (below : List FrameOf) × (self.now.frames ≡ below ++ frame ∷ [])) }
        ensures none { IfNone result (self.now.frames ≡ []) }
    {
        self.frames.last().copied()
    }

    /// Changes what the frame at the top waits for.
    pub fn wait_for(&mut self, wait: Wait)
        ensures top { (below : List FrameOf) (frame : FrameOf) → self.old.frames ≡ below ++ frame ∷ [] → self.new.frames ≡ below ++ (record frame { wait = wait }) ∷ [] }
        ensures free { self.new.free ≡ self.old.free }
        ensures answers { self.new.answers ≡ self.old.answers }
        ensures marks { self.new.marks ≡ self.old.marks }
    {
        if let Some(frame) = self.frames.last_mut() {
            frame.wait = wait;
        }
    }

    /// Takes the frame at the top away.
    pub fn drop_top(&mut self)
        ensures top { (below : List FrameOf) (frame : FrameOf) → self.old.frames ≡ below ++ frame ∷ [] → self.new.frames ≡ below }
        ensures room { room_of self.new ≡ room_of self.old }
        ensures answers { self.new.answers ≡ self.old.answers }
        ensures marks { self.new.marks ≡ self.old.marks }
    {
        let _top = self.frames.pop();
    }

    /// Keeps so many frames, the lowest.
    pub fn truncate(&mut self, len: usize)
        ensures frames { self.new.frames ≡ take len self.old.frames }
        ensures room { room_of self.new ≡ room_of self.old }
        ensures answers { self.new.answers ≡ self.old.answers }
        ensures marks { self.new.marks ≡ self.old.marks }
    {
        self.frames.truncate(len);
    }

    /// Makes the table of answers blank. It takes no memory.
    pub fn clear_table(&mut self)
        ensures blank { IsBlank self.new.answers }
        ensures frames { self.new.frames ≡ self.old.frames }
        ensures free { self.new.free ≡ self.old.free }
        ensures marks { self.new.marks ≡ self.old.marks }
    {
        blank(&mut self.answers);
        self.taken = 0;
    }

    /// The answer of a task, if it is still known.
    pub fn recall(&self, task: Task) -> Option<Edge>
        ensures { IfSome result (λ e. IsRecalled self.now.answers task e) }
    {
        look_up(&self.answers, task)
    }

    /// Widens the table where half of its places were taken, if there is memory.
    fn make_place(&mut self)
        ensures is_of { IsOf self.old.answers self.new.answers }
        ensures frames { self.new.frames ≡ self.old.frames }
        ensures free { self.new.free ≡ self.old.free }
        ensures marks { self.new.marks ≡ self.old.marks }
    {
        if self.taken < self.answers.len() / 2 {
            return;
        }
        let alloc = self.allocator();
        if let Ok(answers) = grown(alloc, &self.answers) {
            self.answers = answers;
        }
    }

    /// Keeps the answer of a task, in place of another. The table grows with the answers, as far as there is memory.
    pub fn remember(&mut self, task: Task, edge: Edge)
        ensures remembers { Remembers self.old.answers self.new.answers task edge }
        ensures frames { self.new.frames ≡ self.old.frames }
        ensures free { self.new.free ≡ self.old.free }
        ensures marks { self.new.marks ≡ self.old.marks }
    {
        self.make_place();
        if write(&mut self.answers, Answer { task, edge }) {
            self.taken = self.taken.saturating_add(1);
        }
    }

    /// Takes all marks away.
    pub fn clear_marks(&mut self)
        ensures marks { self.new.marks ≡ replicate (length self.old.marks) None }
        ensures frames { self.new.frames ≡ self.old.frames }
        ensures free { self.new.free ≡ self.old.free }
        ensures answers { self.new.answers ≡ self.old.answers }
    {
        self.marks.fill(None);
    }

    /// Marks a level with the variable that stands there.
    pub fn mark(&mut self, level: u32, var: u32)
        requires { level < length self.old.marks }
        ensures marks { self.new.marks ≡ slice_set self.old.marks level (Some var) }
        ensures frames { self.new.frames ≡ self.old.frames }
        ensures free { self.new.free ≡ self.old.free }
        ensures answers { self.new.answers ≡ self.old.answers }
    {
        self.marks[level as usize] = Some(var);
    }

    /// The variable with which a level is marked.
    pub fn marked(&self, level: u32) -> Option<u32>
        requires { level < length self.now.marks }
        ensures { result ≡ slice_index_or self.now.marks level None }
    {
        self.marks[level as usize]
    }
}
