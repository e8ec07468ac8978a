ghost use Rattle.std.specs.Prelude.{◌≡◌, ◌<◌, [], length, replicate, slice_get, slice_index_or, slice_set, Some, IfOk, OnOk};
ghost use Rattle.circuit_model.specs.Lines.{continued};

use semantics::Line;
use std::alloc::{AllocError, Global};
use std::marker::Model;

/// The wave of one node. A contract sees it as its lines.
#[derive(Drop)]
pub struct NodeWave {
    lines: Vec<Line>,
}

impl Model for NodeWave {
    ghost use Rattle.std.specs.Prelude.{List};
    ghost use Rattle.semantics.specs.declared.line.Line.{Line};

    ghost Value = { List Line };

    ghost view = { λ w. w.lines.items };
}

impl NodeWave {
    /// No lines, and room for the one that every wave has.
    pub(crate) fn new(alloc: Global) -> Result<NodeWave, AllocError>
        ensures { IfOk result (λ wave. wave ≡ []) }
    {
        Ok(NodeWave {
            lines: Vec::with_capacity(alloc, 1)?,
        })
    }

    /// Its lines.
    pub(crate) fn lines(&self) -> &[Line]
        ensures { result.now ≡ self.now }
    {
        self.lines.as_slice()
    }

    /// Takes in the line of a tick, which begins a line where the last one does not go on.
    #[tactic(auto, unfolding(crate::specs::Lines::continued))]
    pub(crate) fn add(&mut self, line: Line) -> Result<(), AllocError>
        ensures { OnOk result (self.new ≡ continued self.old line) }
    {
        match self.lines.last() {
            Some(last) if line.rate == last.rate && line.den == last.den => Ok(()),
            _ => {
                self.lines.push(line)?;
                Ok(())
            }
        }
    }
}

/// The waves of all nodes, in the order of the nodes. A contract sees them as the list of their lists of lines.
#[derive(Drop)]
pub struct Waves {
    waves: Vec<NodeWave>,
}

impl Model for Waves {
    ghost use Rattle.std.specs.Prelude.{List};
    ghost use Rattle.semantics.specs.declared.line.Line.{Line};

    ghost Value = { List (List Line) };

    ghost view = { λ w. w.waves.items };
}

impl Waves {
    /// This many waves without lines.
    pub(crate) fn empty(alloc: Global, count: usize) -> Result<Waves, AllocError>
        ensures { IfOk result (λ waves. waves ≡ replicate count []) }
    {
        let mut waves = Vec::with_capacity(alloc, count)?;
        for _ in 0..count {
            waves.push(NodeWave::new(alloc)?)?;
        }
        Ok(Waves { waves })
    }

    /// The number of waves.
    pub fn len(&self) -> usize
        ensures { result ≡ length self.now }
    {
        self.waves.len()
    }

    /// The lines of the wave at this place.
    pub fn wave(&self, i: usize) -> &[Line]
        requires { i < length self.now }
        ensures { slice_get self.now i ≡ Some result.now }
    {
        self.waves[i].lines()
    }

    /// Takes the line of a tick into the wave at this place.
    pub(crate) fn add(&mut self, i: usize, line: Line) -> Result<(), AllocError>
        requires { i < length self.old }
        ensures { OnOk result (self.new ≡ slice_set self.old i (continued (slice_index_or self.old i []) line)) }
    {
        self.waves[i].add(line)
    }
}
