// Include directives: what follows a `#`.
#![tactic(auto)]

ghost use Rattle.std.specs.Prelude.{◌≡◌, length};
ghost use Rattle.definition.specs.Lists.{take_while};
ghost use Rattle.definition.specs.Text.{in_quotes};
ghost use Rattle.directives.specs.Directives.{include_at};

use scan::starts_with;
use skips::skip_spaces;

// Where the name of an include starts in a text, and its length.
#[derive(Clone, Copy)]
pub struct Named {
    pub start: usize,
    pub size: usize,
}

// How many bytes stand before the next `"` or newline.
fn quoted_length(text: &[u8]) -> usize
    ensures { result ≡ length (take_while in_quotes text.now) }
{
    text.iter()
        .position(|c| *c == b'"' || *c == b'\n')
        .unwrap_or(text.len())
}

// The include that `text`, which follows a `#`, asks for, if it asks for one.
pub fn parse_include(text: &[u8]) -> Option<Named>
    ensures { result ≡ include_at text.now }
{
    let line = skip_spaces(text);
    if !starts_with(line, b"include") {
        return None;
    }
    let quoted = skip_spaces(&line[7..]);
    if !starts_with(quoted, b"\"") {
        return None;
    }
    let name = &quoted[1..];
    let size = quoted_length(name);
    if !starts_with(&name[size..], b"\"") {
        return None;
    }
    Some(Named {
        start: text.len() - name.len(),
        size,
    })
}
