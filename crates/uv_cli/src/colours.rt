//! When a report that people read has colours.
ghost use Rattle.std.specs.Prelude.{◌≡◌, ◌⊎◌, false, true};
ghost use Rattle.uv_cli.specs.Lint.{look_of};

use std::env::FillError;
use std::rt::Env;
use uv_arguments::Colours;
use uv_report::Look;

/// Whether a report has colours, always or never, by when they are asked for and by what the environment and the
/// terminal say.
pub(crate) fn decided<R: Env>(rt: &R, asked: Colours, is_terminal: bool) -> Colours
    ensures always { asked ≡ Colours.Always → result ≡ Colours.Always }
    ensures never { asked ≡ Colours.Never → result ≡ Colours.Never }
    ensures decided { (result ≡ Colours.Always) ⊎ (result ≡ Colours.Never) }
{
    if are_wanted(rt, asked, is_terminal) {
        Colours::Always
    } else {
        Colours::Never
    }
}

/// How a report looks if colours are asked for like this. If that isn't decided yet, it has none.
pub(crate) fn look_of(colours: Colours) -> Look
    ensures { result ≡ look_of colours }
{
    match colours {
        Colours::Always => Look::Coloured,
        Colours::Auto | Colours::Never => Look::Plain,
    }
}

// Whether colours are wanted. `NO_COLOR` and `FORCE_COLOR` of the environment count if they aren't empty, as
// no-color.org and force-color.org say.
fn are_wanted<R: Env>(rt: &R, asked: Colours, is_terminal: bool) -> bool
    ensures always { asked ≡ Colours.Always → result ≡ true }
    ensures never { asked ≡ Colours.Never → result ≡ false }
{
    match asked {
        Colours::Always => true,
        Colours::Never => false,
        Colours::Auto if is_set(rt, "NO_COLOR") => false,
        Colours::Auto => is_set(rt, "FORCE_COLOR") || (is_terminal && shows_colours(rt)),
    }
}

// Whether the environment has a variable that isn't empty.
fn is_set<R: Env>(rt: &R, name: &str) -> bool {
    let mut room = [0; 1];
    match rt.var(name, &mut room) {
        Ok(length) => length > 0,
        Err(FillError::TooLong) => true,
        Err(FillError::NotPresent) => false,
    }
}

// Whether the terminal shows colours: it doesn't say that it shows only text, and it isn't Emacs, which finds places
// only in plain text.
fn shows_colours<R: Env>(rt: &R) -> bool {
    !is_dumb(rt) && !is_set(rt, "INSIDE_EMACS")
}

// Whether the terminal says that it shows only text.
fn is_dumb<R: Env>(rt: &R) -> bool {
    let mut room = [0; 8];
    match rt.var("TERM", &mut room) {
        Ok(length) => room[..length].starts_with(b"dumb") && length == 4,
        Err(_) => false,
    }
}
