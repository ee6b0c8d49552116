//! What is known of drivers in a log.

ghost use Rattle.driver_plays.specs.Plays.{ScriptsArePlayed};

use binding::scripts_are_followed;

/// A driver with a script that has ended played it in the log: the turns of its loop are those that
/// the script says, to its end, and its own entries in the log are theirs. This is a law: it does
/// nothing.
pub fn scripts_are_played()
    ensures { ScriptsArePlayed }
{
    scripts_are_followed();
}
