//! What is known of every script.

ghost use Rattle.driver_script.specs.Sound.{ScriptsAreSound};

/// A script has one to four adapters, each in its limits and apart from the others, parameters for
/// each, at most eight drivers, each on one of the adapters and with a section, and lines in their
/// limits. This is a law: it does nothing.
pub fn scripts_are_sound()
    ensures { ScriptsAreSound }
{}
