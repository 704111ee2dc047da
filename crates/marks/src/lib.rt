// Marks: columns of numbers that let a question look at fewer places.
#![tactic(auto)]

ghost use Rattle.marks.specs.Estimates.{MarksAreFit};

mod columns;
pub mod estimates;
pub mod marks;

// Whatever sound columns say is fit, forward and backward in time.
pub fn marks_are_fit()
    ensures { MarksAreFit }
{}
