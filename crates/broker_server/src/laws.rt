//! What holds of the octets of a connection over its life.
//!
//! Each function does nothing when it is called: its contract is the law.

ghost use Rattle.broker_server.specs.Lives.{ReadIsHandled};

/// However the octets of a connection come, and whatever the others do: the frames of its session that were handled are
/// the first of what was read from its stream, each once and in order, also if an allocation failed at some turns.
pub fn what_is_read_is_handled_once_and_in_order()
    ensures { ReadIsHandled }
{}
