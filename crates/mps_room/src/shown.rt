//! The session as it is shown.
ghost use Rattle.std.specs.Prelude.{◌≡◌, ◌<◌, IfOk, length};
ghost use Rattle.mps_show.specs.Shown.{show_text, stand_text};

use mps_base::{Role, Roles};
use mps_command::ShownText;
use mps_session::Session;
use mps_show::{a_shown_text_is_one_line, write_show, write_stand};
use std::alloc::{AllocError, Global};

/// The state of the session as one line of JSON, in a `ShownText`, whose demand on the bytes is proved here. It fails
/// only when out of memory.
pub(crate) fn shown_text(
    alloc: Global,
    names: &Roles,
    session: &Session,
) -> Result<ShownText, AllocError>
    requires { length names.now ≡ length session.now.types }
    ensures { IfOk result (λ text. text
        ≡ show_text names.now session.now.types session.now.state.history) }
{
    let mut bytes = Vec::new(alloc);
    write_show(names, session, &mut bytes)?;
    // for the proof alone, of what `of` asks of the bytes
    a_shown_text_is_one_line();
    Ok(ShownText::of(bytes))
}

/// How the role stands as one line of JSON, in a `ShownText`, as `shown_text`. It fails only when out of memory.
pub(crate) fn stand_text(
    alloc: Global,
    names: &Roles,
    session: &Session,
    role: Role,
) -> Result<ShownText, AllocError>
    requires count { length names.now ≡ length session.now.types }
    requires role { role < length session.now.types }
    ensures { IfOk result (λ text. text
        ≡ stand_text names.now session.now.types session.now.state.history role) }
{
    let mut bytes = Vec::new(alloc);
    write_stand(names, session, role, &mut bytes)?;
    // for the proof alone, of what `of` asks of the bytes
    a_shown_text_is_one_line();
    Ok(ShownText::of(bytes))
}
