//! A handler that is ready may be entered: the contract of a function that does nothing.

ghost use Rattle.handler_words.specs.Laws.{EnterLaws};

/// A handler that is ready may be entered.
pub fn enter_laws()
    ensures { EnterLaws }
{}
