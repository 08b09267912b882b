//! Small examples of the definitions of runs and texts, as theorems.

ghost use Rattle.worked_examples.specs.Examples.Loads.{OneStepMakes, SixtySteps};
ghost use Rattle.worked_examples.specs.Examples.Merging.{TwoAreMerged};
ghost use Rattle.worked_examples.specs.Examples.Warps.{WarpChoices};
ghost use Rattle.worked_examples.specs.Examples.Texts.{LineReadings, RunReadings, LineTexts, SetupTexts, SetupReadings, Judgements};

/// Two actors' lists are put together.
pub fn two_are_merged()
    ensures { TwoAreMerged }
{}

/// One step of the load.
pub fn one_step_makes()
    ensures { OneStepMakes }
{}

/// The tally of sixty steps of the load.
pub fn sixty_steps()
    ensures { SixtySteps }
{}

/// Lines of a trace, read.
pub fn line_readings()
    ensures { LineReadings }
{}

/// Lines of a run, read.
pub fn run_readings()
    ensures { RunReadings }
{}

/// Steps and answers, written.
pub fn line_texts()
    ensures { LineTexts }
{}

/// Setups, written.
pub fn setup_texts()
    ensures { SetupTexts }
{}

/// Setup lines, read.
pub fn setup_readings()
    ensures { SetupReadings }
{}

/// Lines of a trace, judged.
pub fn judgements()
    ensures { Judgements }
{}

/// Which lane each select of a run chooses, at which moment, and how.
pub fn warp_choices()
    ensures { WarpChoices }
{}
