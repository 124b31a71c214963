//! What the changes of functions say of runs.
ghost use Rattle.mod_ref.specs.Calls.{StepsChangeOwn, CallsChangeOwn};

/// What a step adds to the history lies in the changes of the function that makes it.
pub fn steps_change_own()
    ensures { StepsChangeOwn }
{}

/// Each change that is made in a call, up to the end of its frame, lies in the changes of the function that was called.
pub fn calls_change_own()
    ensures { CallsChangeOwn }
{}
