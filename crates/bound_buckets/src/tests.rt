//! Worked examples of the calls.

use super::*;

#[test]
fn the_user_interface_against_the_foreground(rt: HostRuntime) {
    for (ui, ui_bound, fg, fg_bound, expected) in [
        // units of 40 + 16 each, and then one of 41 + 16
        (Some(56), None, Some(56), None, Some(false)),
        (Some(56), None, Some(57), None, None),
        (Some(56), None, None, Some(57), None),
        (Some(56), None, None, None, Some(false)),
        // the greater of two, and the bound one on a tie
        (Some(56), Some(56), None, None, Some(true)),
        (Some(57), Some(56), None, None, Some(false)),
        (None, Some(17), Some(16), Some(17), Some(true)),
        (Some(16), Some(57), Some(57), None, Some(true)),
        // nothing of the user interface is queued
        (None, None, Some(8), None, None),
        (None, None, None, None, None),
    ] {
        let tops = Tops {
            ui,
            ui_bound,
            fg,
            fg_bound,
        };
        assert_eq!(rt; above_ui(&tops), expected);
    }
}

#[test]
fn scores_of_bound_units(rt: HostRuntime) {
    assert_eq!(rt;
        (
            bound_score(Bucket::Ui),
            bound_score(Bucket::Fg),
            bound_score(Bucket::Bg)
        ),
        (16, 8, 8)
    );
}
