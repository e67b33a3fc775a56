// What is proved of what sources are built to.
ghost use Rattle.source_builds.specs.Laws.{ReadingsAreOne, WhatIsMetIsBuilt};

/// A source has one tree or one line at which it is refused, and so for whatever sources a run meets there is something that builds just these so.
pub fn readings_are_one()
    ensures one { ReadingsAreOne }
    ensures built { WhatIsMetIsBuilt }
{}
