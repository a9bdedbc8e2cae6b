//! Locations in files, in the style of the formats or of editors.
ghost use Rattle.std.specs.Prelude.{◌≡◌, ◌++◌, IfOk, OnOk};
ghost use Rattle.std.specs.String.{string_bytes};
ghost use Rattle.texts.specs.Escapes.{escaped};
ghost use Rattle.texts.specs.Places.{location_text, needs_slash, path_text, position_text, style_of, writer_style};

use crate::EscapingWriter;
use std::alloc::{AllocError, Global};

/// The style of locations.
#[derive(Clone, Copy)]
pub enum LocationStyle<'a> {
    /// Lines and columns from 0, and paths unchanged.
    Plain,
    /// Lines and columns from 1, and each path after the path of this folder and a slash. The slash is left out if the path of the folder
    /// is empty or ends in one.
    Editor { folder: &'a str },
}

/// Whether a slash has to be inserted between this folder's path and a path in it.
fn needs_slash(path: &str) -> bool
    ensures { result ≡ needs_slash path.now }
{
    !path.is_empty() && !path.as_bytes().ends_with(b"/")
}

impl LocationStyle<'_> {
    /// The path in this style. Control characters are not escaped.
    pub fn full_path(self, alloc: Global, path: &str) -> Result<String, AllocError>
        // The result is the prefix of the style followed by the path.
        ensures { IfOk result (λ text. string_bytes text ≡ (style_of self.entry).prefix ++ path.now) }
    {
        match self {
            LocationStyle::Plain => String::from_str(alloc, path),
            LocationStyle::Editor { folder } if needs_slash(folder) => {
                format!(in alloc; "{folder}/{path}")
            }
            LocationStyle::Editor { folder } => format!(in alloc; "{folder}{path}"),
        }
    }

    /// The number of a file's first line and of a line's first column.
    fn first(self) -> u64
        ensures { result ≡ (style_of self.entry).first }
    {
        match self {
            LocationStyle::Plain => 0,
            LocationStyle::Editor { .. } => 1,
        }
    }

    /// Appends the position, whose line and column are counted from 0, as `LINE:COL` in this style. If an allocation fails, a prefix of
    /// it may have been appended.
    pub fn append_position(self, out: &mut String, line: u32, column: u32) -> Result<(), AllocError>
        // The whole position.
        ensures { OnOk result (string_bytes out.new ≡ string_bytes out.old ++ position_text (style_of self.entry) line column) }
    {
        let first = self.first();
        let (line, column) = (first + u64::from(line), first + u64::from(column));
        write!(out, "{line}:{column}")
    }
}

/// Appends locations in one style, with the control characters of paths escaped. A path equal to the last path without control
/// characters is copied after one comparison.
#[derive(Drop)]
pub struct LocationWriter<'a> {
    style: LocationStyle<'a>,
    folders: EscapingWriter<'a>,
    paths: EscapingWriter<'a>,
}

impl<'a> LocationWriter<'a> {
    /// A writer that has written nothing yet.
    pub fn new(style: LocationStyle<'a>) -> LocationWriter<'a>
        // It has this style.
        ensures { writer_style result ≡ style_of style.entry }
    {
        LocationWriter {
            style,
            folders: EscapingWriter::new(),
            paths: EscapingWriter::new(),
        }
    }

    /// Appends the part of a location that comes before the path: in the style of editors the folder and a slash, else nothing.
    fn append_prefix(&mut self, out: &mut String) -> Result<(), AllocError>
        ensures appended { OnOk result (string_bytes out.new ≡ string_bytes out.old ++ escaped (writer_style self.old).prefix) }
        ensures style { writer_style self.new ≡ writer_style self.old }
    {
        let LocationStyle::Editor { folder } = self.style else {
            return Ok(());
        };
        self.folders.push(out, folder)?;
        if needs_slash(folder) {
            out.push('/')?;
        }
        Ok(())
    }

    /// Appends the path as `PATH` in this style, with its control characters escaped. If an allocation fails, a prefix of it may have
    /// been appended.
    pub fn append_path(&mut self, out: &mut String, path: &'a str) -> Result<(), AllocError>
        // The whole path.
        ensures appended { OnOk result (string_bytes out.new ≡ string_bytes out.old ++ path_text (writer_style self.old) path.now) }
        // The style is unchanged, after an error too.
        ensures style { writer_style self.new ≡ writer_style self.old }
    {
        self.append_prefix(out)?;
        self.paths.push(out, path)
    }

    /// Appends the position in the style of this writer, as `LocationStyle::append_position` does.
    pub fn append_position(
        &self,
        out: &mut String,
        line: u32,
        column: u32,
    ) -> Result<(), AllocError>
        // The whole position.
        ensures { OnOk result (string_bytes out.new ≡ string_bytes out.old ++ position_text (writer_style self.now) line column) }
    {
        self.style.append_position(out, line, column)
    }

    /// Appends the path and the position, whose line and column are counted from 0, as `PATH:LINE:COL` in this style, with the control
    /// characters of the path escaped. If an allocation fails, a prefix of it may have been appended.
    pub fn append_location(
        &mut self,
        out: &mut String,
        path: &'a str,
        line: u32,
        column: u32,
    ) -> Result<(), AllocError>
        // The whole location.
        ensures appended { OnOk result (string_bytes out.new ≡ string_bytes out.old ++ location_text (writer_style self.old) path.now line column) }
        // The style is unchanged, after an error too.
        ensures style { writer_style self.new ≡ writer_style self.old }
    {
        self.append_path(out, path)?;
        out.push(':')?;
        self.append_position(out, line, column)
    }
}
