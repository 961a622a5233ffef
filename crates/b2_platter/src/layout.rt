// How an image spells numbers.
ghost use Rattle.std.specs.Prelude.{◌≡◌, ◌+◌, ◌≤◌, length};
ghost use Rattle.b2_platter.specs.Layout.{version_of, width_of, second_place, most_sectors, sector_number_at, layout_of, by_version};

use byteorder::{BigEndian, ByteOrder};

/// How many sectors an image has at most, in any layout.
pub const MOST_SECTORS: usize = 262_144;

/// The layout of an image: its version, how many bytes a sector number takes, and how many sectors it may have. All
/// places of fields follow from these.
#[derive(Clone, Copy)]
pub enum Layout {
    /// Sector numbers of two bytes.
    Narrow,
    /// Sector numbers of three bytes.
    Wide,
}

impl Layout {
    /// The first byte of an image.
    pub fn version(self) -> u8
        ensures { result ≡ version_of self }
    {
        match self {
            Layout::Narrow => 1,
            Layout::Wide => 2,
        }
    }

    /// How many bytes a sector number takes.
    pub fn width(self) -> usize
        ensures value { result ≡ width_of self }
        ensures low { 2 ≤ result }
        ensures high { result ≤ 3 }
    {
        match self {
            Layout::Narrow => 2,
            Layout::Wide => 3,
        }
    }

    /// Where the second sector number of a slot stands.
    pub fn second_place(self) -> usize
        ensures value { result ≡ second_place self }
        ensures room { result + width_of self ≤ 8 }
    {
        2 + self.width()
    }

    /// How many sectors an image has at most.
    pub fn most_sectors(self) -> usize
        ensures value { result ≡ most_sectors self }
    {
        match self {
            Layout::Narrow => 32_512,
            Layout::Wide => MOST_SECTORS,
        }
    }

    /// The sector number that stands at a place.
    pub fn number(self, bytes: &[u8], place: usize) -> u32
        requires { place + width_of self ≤ length bytes.now }
        ensures { result ≡ sector_number_at self place bytes.now }
    {
        let spelled = &bytes[place..];
        match self {
            Layout::Narrow => u32::from(BigEndian::read_u16(spelled)),
            Layout::Wide => BigEndian::read_u24(spelled),
        }
    }
}

/// The layout of a version: 2 is that of the later machines, and all else is read as 1.
pub fn by_version(version: u8) -> Layout
    ensures { result ≡ by_version version }
{
    if version == 2 {
        Layout::Wide
    } else {
        Layout::Narrow
    }
}

/// The layout of an image, by its first byte.
#[tactic(auto, unfolding(crate::specs::Layout::layout_of))]
pub fn layout_of(bytes: &[u8]) -> Layout
    ensures { result ≡ layout_of bytes.now }
{
    match bytes.first() {
        Some(b) => by_version(*b),
        None => Layout::Narrow,
    }
}
