// The sector that ends the records of a file.
ghost use Rattle.std.specs.Prelude.{◌≡◌, ◌↔◌, IsTrue};
ghost use Rattle.b2_record.specs.EndSector.{end_mark};

use b2_base::lexical;
use b2_platter::slot;

/// The first byte of the end mark; 00 fills its sector.
pub const END_MARK: u8 = 0xA0;

/// The sector that ends the records of a file.
pub fn end_mark() -> [u8; 256]
    ensures { result ≡ end_mark }
{
    let mut bytes = [0; 256];
    bytes[0] = END_MARK;
    bytes
}

/// Whether a sector is the end mark. One that begins as the end mark does and goes on otherwise isn't.
pub fn is_end_mark(sector: &[u8; 256]) -> bool
    ensures { IsTrue result ↔ (sector.now ≡ end_mark) }
{
    sector[0] == END_MARK && slot::all_zero(lexical::rest_after(sector, 1))
}
