//! Laws of replays. Each is the contract of a function that does nothing.

ghost use Rattle.trace_replay.specs.Laws.{ReplayIsIdempotent};

use flat_policy::laws::{runs_stay_sound, runs_stay_within};
use setup_json::laws::{read_setups_are_built, setup_lines_read_again, setups_stand_in_lines};
use trace_machine::laws::blocked_are_live;
use trace_text::laws::{answers_read_again, answers_stand_in_lines, replies_have_texts};

/// What is written for an input without a fault is, as an input, answered by itself, and without a
/// fault.
pub fn replay_is_idempotent()
    ensures { ReplayIsIdempotent }
{
    runs_stay_sound();
    runs_stay_within();
    blocked_are_live();
    replies_have_texts();
    answers_read_again();
    answers_stand_in_lines();
    setups_stand_in_lines();
    setup_lines_read_again();
    read_setups_are_built();
}
