// What is known of every machine.
ghost use Rattle.fusion_core.specs.BoardStates.{IsWhole};

use crate::board::Core;

impl Core {
    /// Each job, each cell and each dock is in one place. The body does nothing: the clause is the theorem.
    pub fn is_whole(&self)
        ensures { IsWhole self.now }
    {
        let _ = &self.jobs;
    }
}
