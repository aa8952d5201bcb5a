//! Paths that name a stream of the program, and no file.
ghost use Rattle.std.specs.Prelude.{◌≡◌};
ghost use Rattle.command_line.specs.Streams.{is_standard_input, is_standard_output};

/// Whether a path names standard input: `-` or `/dev/stdin`.
pub fn is_standard_input(path: &str) -> bool
    ensures { result ≡ is_standard_input path.now }
{
    path == "-" || path == "/dev/stdin"
}

/// Whether a path names standard output: `-` or `/dev/stdout`.
pub fn is_standard_output(path: &str) -> bool
    ensures { result ≡ is_standard_output path.now }
{
    path == "-" || path == "/dev/stdout"
}
