//! Laws of the definitions that contracts cite.

ghost use Rattle.lucy_make.specs.Layout.{PlanIsLaid};
ghost use Rattle.lucy_make.specs.Steps.{MadeStepsNameReplicas};
ghost use Rattle.lucy_make.specs.Work.{MadeWorkFits};

/// The text of a made plan is in the layout of printed plans: one space between two words, and a line's end behind `;`, `{`,
/// `}`, the version and the last word.
pub fn made_plan_is_laid()
    ensures { PlanIsLaid }
{}

/// Made work is within the limits of work, and its calls fit the plan.
pub fn made_work_fits()
    ensures { MadeWorkFits }
{}

/// Each made step names one of the replicas.
pub fn made_steps_name_replicas()
    ensures { MadeStepsNameReplicas }
{}
