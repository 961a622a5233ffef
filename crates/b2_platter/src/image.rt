// The rows, the sectors and the head of an image.
ghost use Rattle.std.specs.Prelude.{◌≡◌, ◌+◌, ◌*◌, ◌≤◌, length};
ghost use Rattle.b2_platter.specs.Image.{row, sector, index_of, total_of, catalogue_end, next_free};

use crate::Layout;

/// How many bytes a sector has.
pub const SECTOR_BYTES: usize = 256;

/// Row k of the index: the head at 0, and then the slots.
#[tactic(auto, unfolding(crate::specs::Image::row))]
pub fn row(image: &[u8], k: usize) -> &[u8; 16]
    requires { 16 * k + 16 ≤ length image.now }
    ensures { result.now ≡ row image.now k }
{
    image[16 * k..].first_chunk().unwrap()
}

/// Sector n.
#[tactic(auto, unfolding(crate::specs::Image::sector))]
pub fn sector(image: &[u8], n: usize) -> &[u8; 256]
    requires { 256 * n + 256 ≤ length image.now }
    ensures { result.now ≡ sector image.now n }
{
    image[256 * n..].first_chunk().unwrap()
}

/// How many sectors the index takes.
#[tactic(auto, unfolding(crate::specs::Image::index_of))]
pub fn index(image: &[u8]) -> usize
    requires { 16 ≤ length image.now }
    ensures value { result ≡ index_of image.now }
    ensures few { result ≤ 255 }
{
    usize::from(row(image, 0)[1])
}

/// How many sectors the head says there are.
#[tactic(auto, unfolding(crate::specs::Image::total_of))]
pub fn total(layout: Layout, image: &[u8]) -> u32
    requires { 16 ≤ length image.now }
    ensures { result ≡ total_of layout image.now }
{
    layout.number(row(image, 0), 2)
}

/// The first sector after the catalogue.
#[tactic(auto, unfolding(crate::specs::Image::catalogue_end))]
pub fn catalogue_end(layout: Layout, image: &[u8]) -> u32
    requires { 16 ≤ length image.now }
    ensures { result ≡ catalogue_end layout image.now }
{
    layout.number(row(image, 0), 2 + layout.width())
}

/// The first sector that no file has.
#[tactic(auto, unfolding(crate::specs::Image::next_free))]
pub fn next_free(layout: Layout, image: &[u8]) -> u32
    requires { 16 ≤ length image.now }
    ensures { result ≡ next_free layout image.now }
{
    layout.number(row(image, 0), 2 + 2 * layout.width())
}
