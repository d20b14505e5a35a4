//! The profiles: which texts count as valid.
ghost use Rattle.std.specs.Prelude.{◌≡◌};
ghost use Rattle.uv_model.specs.ProfileName.{named_profile, profile_name, profiles_in_order};

/// The conditions by which a text is checked. Each takes what the one before it takes, with the same parts, and more.
/// They differ in the hosts of special and file URLs, in the path after an authority, in file URLs and in opaque paths
/// (URL Standard, sections 3.4, 3.5, 4.3 and 4.4).
#[derive(Clone, Copy, Debug, PartialEq, Eq)]
pub enum Profile {
    /// The URL Standard's valid URL strings: a domain passes ToASCII and ToUnicode with the strict settings too, and a
    /// path after an authority has an empty first segment only if it has no other.
    Standard,
    /// The texts of the standard profile and more: a domain is checked only by the URL parser's settings and may hold
    /// `_`, and a path after an authority is `/` and any segments.
    Wide,
    /// Exactly the texts that the URL parser takes without a validation error: a host is what the host parser makes a
    /// domain or an address of, without an error; the authority of a file URL may be empty, and its path may begin with
    /// a drive letter after a host; an opaque path may hold spaces, but none at the text's end.
    Parser,
}

impl Profile {
    /// The profiles, beginning with the narrowest.
    pub fn in_order() -> [Profile; 3]
        ensures { result ≡ profiles_in_order }
    {
        [Profile::Standard, Profile::Wide, Profile::Parser]
    }

    /// The profile's name.
    pub fn name(self) -> &'static str
        ensures { result.now ≡ profile_name self }
    {
        match self {
            Profile::Standard => "standard",
            Profile::Wide => "wide",
            Profile::Parser => "parser",
        }
    }

    /// The profile with this name, or `None` if no profile has it.
    pub fn of_name(name: &str) -> Option<Profile>
        ensures { result ≡ named_profile name.now }
    {
        match name {
            "standard" => Some(Profile::Standard),
            "wide" => Some(Profile::Wide),
            "parser" => Some(Profile::Parser),
            _ => None,
        }
    }
}
