//! Laws of escapes and of locations. Each function is a law: its body is empty, and its contract is proved.
ghost use Rattle.std.specs.Prelude.{◌≡◌, ◌+◌, ◌++◌, ℕ, List, codes, false};
ghost use Rattle.std.specs.Char.{is_ascii_control};
ghost use Rattle.std.specs.List.{list_any};
ghost use Rattle.texts.specs.Escapes.{escaped, IsOneLine};
ghost use Rattle.texts.specs.Places.{location_text, path_text, plain_style, position_text, Style};

/// An escaped text has no control character, a text without one is unchanged by escaping, and words without one, followed by an escaped
/// text and an LF, are one line.
pub fn escaped_is_one_line()
    ensures none { (text : List ℕ) → list_any is_ascii_control (escaped text) ≡ false }
    ensures stays { (text : List ℕ) → list_any is_ascii_control text ≡ false → escaped text ≡ text }
    ensures line { (words text : List ℕ) → list_any is_ascii_control words ≡ false → IsOneLine (words ++ escaped text ++ codes "\n") }
{}

/// A location in any style is the raw form of the shifted location with the prefixed path.
pub fn style_shifts_location()
    // A path, `PATH`: its plain form with the prefix.
    ensures path { (style : Style) (path : List ℕ) → path_text style path ≡ path_text plain_style (style.prefix ++ path) }
    // A position, `LINE:COL`: the plain form of the shifted position.
    ensures position { (style : Style) (line column : ℕ) → position_text style line column ≡ position_text plain_style (style.first + line) (style.first + column) }
    // A location, `PATH:LINE:COL`: the plain form with both.
    ensures location { (style : Style) (path : List ℕ) (line column : ℕ) → location_text style path line column ≡ location_text plain_style (style.prefix ++ path) (style.first + line) (style.first + column) }
{}
