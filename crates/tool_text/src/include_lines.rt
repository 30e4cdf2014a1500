//! Include lines, for a look at a file before it is processed.

ghost use Rattle.std.specs.Prelude.{◌≡◌};
ghost use Rattle.tool_text.specs.Directive.{directive_of};
ghost use Rattle.tool_text.specs.Seen.{include_seen};
ghost use Rattle.tool_text.specs.IncludeLine.{include_of};

use crate::directive::{Directive, Target, directive_of};

/// What a line says of another file, in whatever group it stands.
#[derive(Clone, Copy, Debug, Drop)]
pub enum IncludeLine<'a> {
    /// It is no include line.
    Other,
    /// It asks for a file, looked for from the folder of the including file on.
    Quoted(&'a [u8]),
    /// It asks for a file, looked for in the include folders alone.
    Angled(&'a [u8]),
    /// It is an include line of another form.
    Computed,
}

/// What a line says of another file.
pub fn include_line(line: &[u8]) -> IncludeLine<'_>
    ensures { include_seen result ≡ include_of (directive_of line.now) }
{
    match directive_of(line) {
        Directive::Include(Some(Target::Quoted(file))) => IncludeLine::Quoted(file),
        Directive::Include(Some(Target::Angled(file))) => IncludeLine::Angled(file),
        Directive::Include(None) => IncludeLine::Computed,
        _ => IncludeLine::Other,
    }
}
