//! The laws that what is loaded from the image of a world agrees with it, and so goes on alike.
#![tactic(auto)]

ghost use Rattle.image_load.specs.Both.{BothLoadedAgree};
ghost use Rattle.image_load.specs.Loads.{LoadedAgrees};
ghost use Rattle.image_load.specs.Session.{SessionAgrees, SessionGoesOn, SessionSavedAgain};

/// What is loaded from the image of a world agrees with what was written, objects of the world that it is loaded into apart.
pub fn loaded_worlds_agree()
    ensures { LoadedAgrees }
{}

/// A session that was saved and loaded agrees with what it was, goes on as it would have over any number of steps, and has the same image again.
pub fn sessions_go_on()
    ensures agrees { SessionAgrees }
    ensures goes_on { SessionGoesOn }
    ensures again { SessionSavedAgain }
{}

/// One image that is loaded into two worlds that agree leaves worlds that agree.
pub fn both_loaded_agree()
    ensures { BothLoadedAgree }
{}
