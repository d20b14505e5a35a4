//! Whether a lint reads the standard input.
ghost use Rattle.std.specs.List.{list_any};
ghost use Rattle.std.specs.Prelude.{◌≡◌, map};
ghost use Rattle.uv_arguments.specs.Requests.{is_input};

/// Whether the standard input is one of the files.
pub(crate) fn has_input(files: &[&str]) -> bool
    ensures { result ≡ list_any is_input (map (λ f. f.now) files.now) }
{
    for file in files {
        if *file == "-" {
            return true;
        }
    }
    false
}
