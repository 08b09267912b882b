//! Laws of the texts of setups.

ghost use Rattle.setup_json.specs.Laws.{ReadSetupsAreBuilt, SetupLinesReadAgain, SetupsReadAgain, SetupsStandInLines};

/// The canonical text of each setup is read as that setup.
pub fn setups_read_again()
    ensures { SetupsReadAgain }
{}

/// The canonical text of each setup, with a newline, is the first line of whatever bytes go on
/// with it.
pub fn setups_stand_in_lines()
    ensures { SetupsStandInLines }
{}

/// As the first line of an input, the canonical text of each setup is within the limit and is read
/// as that setup.
pub fn setup_lines_read_again()
    ensures { SetupLinesReadAgain }
{}

/// Each setup that a line is read as is a built one: all its parts are in their ranges.
pub fn read_setups_are_built()
    ensures { ReadSetupsAreBuilt }
{}
