//! Where two sides begin, and when all was handled: each law is the contract of a function with nothing to do.

ghost use Rattle.std.specs.Prelude.{◌≡◌, [], length};
ghost use Rattle.base.specs.declared.pair.Pair.{Pair};
ghost use Rattle.activities.specs.Journal.{sent_of, handled_of};
ghost use Rattle.keep.specs.Tables.{empty};
// Counting is enough: on fair sides what was handled is a prefix of what was sent, so equal lengths mean all of it.
ghost use Rattle.laws_network.specs.Fair.{IsFair, HandledAll};
ghost use Rattle.laws_network.specs.Sides.{Sides};

use activities::Handler;

/// Two sides that did nothing yet, and sent nothing, are fair.
pub fn nothing_was_exchanged<H: Handler, G: Handler>()
    ensures { IsFair H.service G.service (record {
      left = empty;
      right = empty;
      network = record { from_left = []; from_right = [] };
    }) }
{}

/// Of fair sides the one that handled as many letters of a pair as the other sent has handled all of them, in order.
pub fn all_was_handled<H: Handler, G: Handler>()
    ensures right { (z : Sides H.State H.Command G.State G.Command) (p : Pair) → IsFair H.service G.service z
        → handled_of z.right.journal p ≡ length (sent_of H.service.reactions z.left.journal p)
        → HandledAll H.service.reactions z.left.journal z.right.journal p }
    ensures left { (z : Sides H.State H.Command G.State G.Command) (p : Pair) → IsFair H.service G.service z
        → handled_of z.left.journal p ≡ length (sent_of G.service.reactions z.right.journal p)
        → HandledAll G.service.reactions z.right.journal z.left.journal p }
{}
