//! A run, known by a type.
use std::marker::Brand;

/// Stands for one run. It has no calls: a value behind a lock is known by its type alone, so what such values have to
/// agree on is named by a type. Contracts see of it a setup, a list of programs, a list of powers and the desks.
pub trait RunName {
    ghost use Rattle.std.specs.Prelude.{List};
    ghost use Rattle.rights.specs.Values.{DeskId};
    ghost use Rattle.flat_policy.specs.Policy.Setup.{SetupParts};
    ghost use Rattle.flat_policy.specs.Runs.Worker.{PowerAt, Program};

    ghost setup: { SetupParts };

    ghost programs: { List Program };

    ghost powers: { List PowerAt };

    ghost desks: { List DeskId };
}

impl RunName for Brand {
    ghost use Rattle.std.specs.Prelude.{[]};
    ghost use Rattle.cells.specs.Courses.{no_setup};

    ghost setup = { no_setup };

    ghost programs = { [] };

    ghost powers = { [] };

    ghost desks = { [] };
}
