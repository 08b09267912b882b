//! What the rows are played with.
ghost use Rattle.std.specs.Prelude.{◌≡◌, IfOk, map};
ghost use Rattle.trace_text.specs.Runs.{power_of, program_of};
ghost use Rattle.held_rows.specs.Rows.{row_powers, row_program, row_programs};

use flat_policy::texts::{Power, ProgramLine};
use sched_base::Bucket;
use std::alloc::{AllocError, Global};

/// A program of 5000 units of work, bound nowhere.
pub fn program(name: u32) -> ProgramLine
    ensures { program_of result ≡ row_program name }
{
    let mut spans = [0; 15];
    spans[0] = 5000;
    ProgramLine {
        name,
        group: 0,
        bucket: Bucket::Fg,
        base: 31,
        bound: None,
        spans,
        count: 1,
    }
}

/// The programs 3 and 7. `AllocError` is want of memory.
pub fn programs(alloc: Global) -> Result<Vec<ProgramLine>, AllocError>
    ensures { IfOk result (λ ps. map program_of ps.items ≡ row_programs) }
{
    let mut programs = Vec::with_capacity(alloc, 2)?;
    programs.push_reserved(program(3));
    programs.push_reserved(program(7));
    Ok(programs)
}

/// Powers: cluster 0 is turned off in turn 0, and on in turn 1. `AllocError` is want of memory.
pub fn powers(alloc: Global) -> Result<Vec<Power>, AllocError>
    ensures { IfOk result (λ ps. map power_of ps.items ≡ row_powers) }
{
    let mut powers = Vec::with_capacity(alloc, 2)?;
    powers.push_reserved(Power {
        cluster: 0,
        on: false,
        turn: 0,
    });
    powers.push_reserved(Power {
        cluster: 0,
        on: true,
        turn: 1,
    });
    Ok(powers)
}
