use std::alloc::{AllocError, Global};

/// Nodes that wait, each once.
#[derive(Drop)]
pub struct Queue {
    /// The nodes, of which the last is next.
    pub waiting: Vec<usize>,
    /// Whether each node waits.
    pub waits: Vec<bool>,
}

impl Queue {
    ghost use Rattle.std.specs.Prelude.{◌≡◌, ◌<◌, ◌+◌, ℕ, List, length, IfOk, OnOk};
    ghost use Rattle.reach_graph.specs.{Reaching.{word_at}, Queues.{IsQueue, IsAdded, IsTaken, StartsWith}};

    /// The nodes that have a mark. It fails only where no memory was left.
    pub fn of_marked(alloc: Global, marks: &[u64]) -> Result<Queue, AllocError>
        ensures { IfOk result (λ q. StartsWith marks.now (length marks.now) q.waiting.items q.waits.items) }
    {
        let nodes = marks.len();
        let mut queue = Queue {
            waiting: Vec::new(alloc),
            waits: vec![in alloc; false; nodes]?,
        };
        for n in 0..nodes {
            queue.begin_with(n, marks[n])?;
        }
        Ok(queue)
    }

    /// Lets a node wait that has marks.
    fn begin_with(&mut self, node: usize, marks: u64) -> Result<(), AllocError>
        requires { node < length self.old.waits.items }
        ensures { OnOk result ((all : List ℕ) → marks ≡ word_at all node → StartsWith all node self.old.waiting.items self.old.waits.items → StartsWith all (node + 1) self.new.waiting.items self.new.waits.items) }
    {
        if marks == 0 {
            return Ok(());
        }
        self.add(node)
    }

    /// Lets a node wait, if it doesn't yet.
    pub(crate) fn add(&mut self, node: usize) -> Result<(), AllocError>
        requires { node < length self.old.waits.items }
        ensures { OnOk result (IsAdded node self.old.waiting.items self.old.waits.items self.new.waiting.items self.new.waits.items) }
    {
        if !self.waits[node] {
            self.waiting.push(node)?;
            self.waits[node] = true;
        }
        Ok(())
    }

    /// Takes a node that waits, if one does.
    pub fn take(&mut self) -> Option<usize>
        requires { IsQueue self.old.waiting.items self.old.waits.items }
        ensures { IsTaken self.old.waiting.items self.old.waits.items result self.new.waiting.items self.new.waits.items }
    {
        match self.waiting.pop() {
            Some(node) => {
                self.waits[node] = false;
                Some(node)
            }
            None => None,
        }
    }
}
