//! The profile that the command line asks for.
ghost use Rattle.std.specs.Prelude.{◌≡◌, option_map};
ghost use Rattle.uv_arguments.specs.Requests.{wanted_by, wanted_by_name, wanted_view};
ghost use Rattle.uv_model.specs.ProfileName.{named_profile};

use uv_model::Profile;

/// The profile that is asked for.
#[derive(Clone, Copy)]
pub(crate) enum Asked<'a> {
    /// This one.
    Known(Profile),
    /// This name, which isn't a profile's.
    Unknown(&'a str),
}

/// The profile that is asked for by `--wide`, which stands for `--profile wide`, or by `--profile NAME`: the standard
/// one if neither is given, and none if both are.
pub(crate) fn asked_for<'a>(is_wide: bool, name: Option<&'a str>) -> Option<Asked<'a>>
    ensures { option_map wanted_view result ≡ wanted_by is_wide (option_map (λ t. t.now) name.entry) }
{
    match name {
        None if is_wide => Some(Asked::Known(Profile::Wide)),
        None => Some(Asked::Known(Profile::Standard)),
        Some(_) if is_wide => None,
        Some(name) => Some(by_name(name)),
    }
}

// The profile with a name.
fn by_name<'a>(name: &'a str) -> Asked<'a>
    ensures { wanted_view result ≡ wanted_by_name name.entry.now (named_profile name.entry.now) }
{
    match Profile::of_name(name) {
        Some(profile) => Asked::Known(profile),
        None => Asked::Unknown(name),
    }
}
