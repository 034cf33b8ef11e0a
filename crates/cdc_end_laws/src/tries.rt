//! What the refusal of a step means that was tried again.

ghost use Rattle.cdc_end_laws.specs.Tries.{RefusedPlaysFailedEachTime, RefusedStepsFailedEachTime};

/// Does nothing. A step that may be tried again N times and is refused because the store failed or memory ran out has
/// failed N + 1 times in a row. The same holds of the step at which a play ends.
pub fn refused_steps_failed_each_time()
    ensures step { RefusedStepsFailedEachTime }
    ensures play { RefusedPlaysFailedEachTime }
{}
