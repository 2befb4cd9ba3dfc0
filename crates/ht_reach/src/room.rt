//! How many variables the frames of a search may have.
ghost use Rattle.ht_reach.specs.declared.room.TheConstants.{MAX_FRAME_VARIABLES};
ghost use Rattle.std.specs.Prelude.{◌≡◌, ◌≤◌, ◌<◌, ◌+◌, false, true};

// The frames of a search have no more variables together.
const MAX_FRAME_VARIABLES: usize = 2_097_152;

/// How many variables the solvers of all frames have together, those of a question too.
#[derive(Clone, Copy)]
pub struct FrameVariables {
    count: usize,
    ghost few: { count ≤ MAX_FRAME_VARIABLES },
}

impl FrameVariables {
    /// No frame has any.
    pub fn new() -> FrameVariables
        ensures { result.count ≡ 0 }
    {
        FrameVariables { count: 0 }
    }

    /// Counts so many more; false, and then none is counted, where there is no room for all of them.
    pub fn add(&mut self, variables: usize) -> bool
        ensures counted { result ≡ true → self.new.count ≡ self.old.count + variables }
        ensures full { result ≡ false → MAX_FRAME_VARIABLES < self.old.count + variables }
    {
        if variables > MAX_FRAME_VARIABLES - self.count {
            return false;
        }
        self.count += variables;
        true
    }
}
