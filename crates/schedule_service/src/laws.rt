//! What holds of each event: a law is the contract of a function with nothing to do.

ghost use Rattle.schedule_mail.specs.Mails.{Mail};
ghost use Rattle.schedule_text.specs.declared.outcome.Outcome.{Outcome};
ghost use Rattle.schedule_service.specs.Cursors.{KeepsRight};
ghost use Rattle.schedule_service.specs.SiteEvents.{SiteEvent};
ghost use Rattle.schedule_service.specs.declared.site.Site.{Site};

use activities::Handler;
use keep::Keep;

/// The relays' cursors of a service's open connections stay right of its outbox, whichever event comes: so a filling
/// needn't look from the first row on.
pub fn cursors_stay_right<H, K>()
where
    H: Handler,
    K: Keep<State = H::State, Command = H::Command> + Drop,
    ensures { (event : SiteEvent H.Command) (outcome : Outcome) (s t : Site H K H.State H.Command) (from to : Mail)
        → KeepsRight K.seen H.service event outcome s from t to }
{}
