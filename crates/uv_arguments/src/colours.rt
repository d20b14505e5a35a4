//! When a report that people read has colours.
ghost use Rattle.std.specs.Prelude.{◌≡◌, MatchResult, Err, Ok, option_map};
ghost use Rattle.uv_arguments.specs.Colours.{colours_asked, named_colours};

/// When a report that people read has colours.
#[derive(Clone, Copy)]
pub enum Colours {
    /// At a terminal, unless the environment says otherwise.
    Auto,
    /// Always.
    Always,
    /// Never.
    Never,
}

impl Colours {
    /// All of them, in the order of docs and help.
    pub fn in_order() -> [Colours; 3] {
        [Colours::Auto, Colours::Always, Colours::Never]
    }

    /// The name on the command line.
    pub fn name(self) -> &'static str {
        match self {
            Colours::Auto => "auto",
            Colours::Always => "always",
            Colours::Never => "never",
        }
    }

    /// The one with this name, or `None` if there is none.
    pub fn of_name(name: &str) -> Option<Colours>
        ensures { result ≡ named_colours name.now }
    {
        match name {
            "auto" => Some(Colours::Auto),
            "always" => Some(Colours::Always),
            "never" => Some(Colours::Never),
            _ => None,
        }
    }
}

/// When `--color WHEN` asks for colours, which is `auto` if it isn't given; or the name, if it isn't one of these.
pub(crate) fn colours_asked<'a>(name: Option<&'a str>) -> Result<Colours, &'a str>
    ensures { MatchResult result (λ colours. colours_asked (option_map (λ t. t.now) name.entry) ≡ Ok colours)
        (λ other. colours_asked (option_map (λ t. t.now) name.entry) ≡ Err other.now) }
{
    let Some(name) = name else {
        return Ok(Colours::Auto);
    };
    match Colours::of_name(name) {
        Some(colours) => Ok(colours),
        None => Err(name),
    }
}
