//! What follows from the definitions. Nothing here does anything when it runs.
ghost use Rattle.std.specs.Prelude.{◌≡◌, true};
ghost use Rattle.clap.specs.Words.{Text};
ghost use Rattle.command_line.specs.Plain.{ReadsInOrder, ReadsWithSession, is_plain};

/// Words in the order `MAP SCRIPT --rdl OUT --header OUT` are taken, where none of the four texts begins with a hyphen,
/// and each part has its word.
pub fn words_in_order_are_read()
    ensures { (map script rdl header : Text) → is_plain map ≡ true → is_plain script ≡ true → is_plain rdl ≡ true → is_plain header ≡ true
        → ReadsInOrder map script rdl header }
{}

/// The same words with `--session OUT` behind them are taken, where that file begins with no hyphen either.
pub fn words_with_a_session_are_read()
    ensures { (map script rdl header session : Text) → is_plain map ≡ true → is_plain script ≡ true → is_plain rdl ≡ true → is_plain header ≡ true
        → is_plain session ≡ true → ReadsWithSession map script rdl header session }
{}
