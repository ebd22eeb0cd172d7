ghost use Rattle.std.specs.Prelude.{◌≡◌};
ghost use Rattle.mips_plain.specs.Inside.{IsInside};
ghost use Rattle.xom_model.specs.Guest.{session_after_step as moved_of};

use crate::masks::mask_after;
use mips_effect::effects::Effect;
use mips_plain::{handler_after, kept_after};
use session_table::Session;
use xom_base::Step;

/// The session after a step of this effect.
pub fn moved(session: &Session, effect: &Effect, step: &Step) -> Session
    requires { IsInside step.now }
    ensures { result ≡ moved_of session.now effect.now step.now }
{
    Session {
        pc: effect.pc,
        npc: effect.npc,
        mask: mask_after(session.mask, step),
        handler: handler_after(session.handler, effect.wish),
        saved: kept_after(session.saved, effect.wish),
        ..*session
    }
}
