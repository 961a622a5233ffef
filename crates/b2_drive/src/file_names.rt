// The names of files.
ghost use Rattle.std.specs.Prelude.{◌≡◌, true};
ghost use Rattle.b2_atom.specs.declared.rows.TheConstants as row;
ghost use Rattle.b2_rows.specs.Rows.{is_phrase, tree_at};
ghost use Rattle.b2_expr.specs.Scope.{surroundings};
ghost use Rattle.b2_expr.specs.Value.{in_statement};
ghost use Rattle.b2_drive.specs.FileNames as spec;

use b2_atom::Cursor;
use b2_base::codes::D87_FILE_NAME;
use b2_base::{Code, Name8};
use b2_dec::Bytes;
use b2_expr::{Env, alpha};

/// The name that bytes are, all of them, D87 where they aren't one.
fn file_name(bytes: &[u8]) -> Result<Name8, Code>
    ensures { result ≡ spec.file_name bytes.now }
{
    match Name8::of(bytes) {
        Some(name) => Ok(name),
        None => Err(Code::known(D87_FILE_NAME)),
    }
}

/// The name of a file at a text.
pub fn name_at(e: &Env<'_>, text: &[u8]) -> Result<Name8, Code>
    requires phrase { is_phrase row.ALPHA text.now ≡ true }
    ensures { result ≡ spec.name_given (in_statement (surroundings e.now)) (tree_at row.ALPHA text.now) }
{
    let mut bytes = Bytes::new();
    match alpha(&mut Cursor::over(text), e, &mut bytes) {
        Ok(()) => file_name(bytes.bytes()),
        Err(code) => Err(code),
    }
}
