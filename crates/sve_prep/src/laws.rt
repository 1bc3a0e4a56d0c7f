ghost use Rattle.sve_prep.specs.Asked.{NeedsAreAsked, NeedsAreUntold, DoneOverAll};
ghost use Rattle.sve_prep.specs.Larger.{DoneAlike};

/// An expansion that is done over what is told of some files is the same over whatever else is told of others.
pub fn done_alike()
    ensures { DoneAlike }
{}

/// A name that an expansion needs over what is told of some files is among those that it asks for where more is told, and so
/// much that it is done.
pub fn needs_are_asked()
    ensures { NeedsAreAsked }
{}

/// Nothing is told of a name that an expansion needs.
pub fn needs_are_untold()
    ensures { NeedsAreUntold }
{}

/// Where something is told of each name, that it is absent or its text, an expansion is done.
pub fn done_over_all()
    ensures { DoneOverAll }
{}
