//! What holds of the frames that were handled.
//!
//! Each function does nothing when it is called: its contract is the law.

ghost use Rattle.broker_core.specs.Streams.{HandledAreFirst, HandledAreTaken, TakenAreSpelled};

/// The frames that were handled were taken from what their session was fed, one after another, whatever other sessions
/// did; and an open session still has what was not taken.
pub fn handled_frames_were_fed()
    ensures { HandledAreTaken }
{}

/// Frames that were taken are spelled in the octets that the session was fed, in order and without an octet between;
/// each was decided by what it asks.
pub fn taken_frames_are_spelled()
    ensures { TakenAreSpelled }
{}

/// However the text of a session was cut, and whatever happened between: the frames that had their step at some calls
/// of `feed` are the first of all that it was fed, each once and in order, also if an allocation failed in some of
/// these calls.
pub fn frames_are_handled_once_and_in_order()
    ensures { HandledAreFirst }
{}
