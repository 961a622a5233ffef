// Images that are made or changed.
ghost use Rattle.std.specs.Prelude.{◌≡◌, ◌+◌, ◌-◌, ◌*◌, ◌^◌, ◌<◌, ◌≤◌, ◌++◌, All, length, take, drop, replicate};
ghost use Rattle.b2_platter.specs.Layout.{width_of};
ghost use Rattle.b2_platter.specs.Edits.{sector_number_bytes, head_bytes, put_sector, put_sectors};

use crate::Layout;
use byteorder::{BigEndian, ByteOrder};

/// Spells a sector number at a place.
pub fn put_sector_number(layout: Layout, bytes: &mut [u8], place: usize, n: u32)
    requires room { place + width_of layout ≤ length bytes.old }
    requires fits { n < 256 ^ width_of layout }
    ensures { bytes.new ≡ take place bytes.old ++ (sector_number_bytes layout n ++ drop (place + width_of layout) bytes.old) }
{
    BigEndian::write_uint(&mut bytes[place..], u64::from(n), layout.width());
}

/// The head of an image.
pub fn image_head(layout: Layout, index: u8, total: u32, end: u32, next: u32) -> [u8; 16]
    requires total_fits { total < 256 ^ width_of layout }
    requires end_fits { end < 256 ^ width_of layout }
    requires next_fits { next < 256 ^ width_of layout }
    ensures { result ≡ head_bytes layout index total end next }
{
    let mut image_head = [0; 16];
    image_head[0] = layout.version();
    image_head[1] = index;
    put_sector_number(layout, &mut image_head, 2, total);
    put_sector_number(layout, &mut image_head, 2 + layout.width(), end);
    put_sector_number(layout, &mut image_head, 2 + 2 * layout.width(), next);
    image_head
}

/// Makes the first sectors a head with 00 after it.
pub fn clear(bytes: &mut [u8], image_head: &[u8; 16], sectors: usize)
    requires some { 1 ≤ sectors }
    requires room { 256 * sectors ≤ length bytes.old }
    ensures { bytes.new ≡ image_head.now ++ replicate (256 * sectors - 16) 0 ++ drop (256 * sectors) bytes.old }
{
    bytes[..16].copy_from_slice(image_head);
    bytes[16..256 * sectors].fill(0);
}

/// Puts the bytes of a sector in place.
#[tactic(auto, unfolding(crate::specs::Edits::put_sector))]
pub fn put_sector(image: &mut [u8], n: usize, bytes: &[u8; 256])
    requires { 256 * n + 256 ≤ length image.old }
    ensures { image.new ≡ put_sector image.old n bytes.now }
{
    image[256 * n..256 * n + 256].copy_from_slice(bytes);
}

/// Puts the bytes of some sectors in place.
pub fn put_sectors(image: &mut [u8], edits: &[(u32, [u8; 256])])
    requires { All (λ edit. 256 * edit.0 + 256 ≤ length image.old) edits.now }
    ensures { image.new ≡ put_sectors image.old edits.now }
{
    for (n, bytes) in edits {
        put_sector(image, *n as usize, bytes);
    }
}
