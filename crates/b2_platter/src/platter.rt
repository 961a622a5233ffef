// A disk image that is good by its type.
ghost use Rattle.std.specs.Prelude.{◌≡◌, ◌+◌, ◌*◌, ◌<◌, ◌≤◌, All, IfOk, MatchResult, true, Some, length};
ghost use Rattle.b2_platter.specs.Layout.{layout_of, by_version, version_of, most_sectors};
ghost use Rattle.b2_platter.specs.Image.{sector};
ghost use Rattle.b2_platter.specs.Own.{end_of, sectors_of};
ghost use Rattle.b2_platter.specs.Checks.{own_check, IsGood};
ghost use Rattle.b2_platter.specs.Volume.{image as spelling, volume};
ghost use Rattle.b2_platter.specs.Edits.{blank_image, formatted, CanFormat, put_sector, put_sectors, is_data_sector};

use crate::checks::first_check;
use crate::image::{self, SECTOR_BYTES};
use crate::{Layout, edits, layout};
use b2_base::NoMemory;
use std::alloc::Global;
use std::marker::Model;

/// The first check that an image fails, from 1 to 9.
#[derive(Clone, Copy)]
pub struct ImageErr(pub u8);

/// A disk image that fails none of the nine checks. Contracts see it as its bytes.
#[derive(Drop)]
pub struct Platter {
    bytes: Vec<u8>,
}

impl Model for Platter {
    ghost use Rattle.std.specs.Prelude.{ℕ, List};
    ghost use Rattle.b2_platter.specs.Checks.{IsGood};

    ghost Value = { List ℕ };

    ghost view = { λ p. p.bytes.items };

    ghost invariant = { λ p. IsGood p.bytes.items };
}

impl Platter {
    /// The platter of an image, or the first check that it fails. It takes no memory.
    pub fn open(bytes: Vec<u8>) -> Result<Platter, ImageErr>
        ensures { MatchResult result (λ p. IsGood bytes.items × (p ≡ bytes.items)) (λ e. own_check bytes.items ≡ Some e.0) }
    {
        match first_check(&bytes) {
            None => Ok(Platter { bytes }),
            Some(n) => Err(ImageErr(n)),
        }
    }

    /// Its bytes.
    pub fn image(&self) -> &[u8]
        ensures value { result.now ≡ self.now }
        ensures good { IsGood self.now }
    {
        &self.bytes
    }

    /// How many sectors it has.
    pub fn sectors(&self) -> u32
        ensures value { result ≡ sectors_of self.now }
        ensures whole { length self.now ≡ 256 * result }
        ensures good { IsGood self.now }
    {
        image::total(self.layout(), self.image())
    }

    /// The first sector after its catalogue.
    pub fn catalogue_end(&self) -> u32
        ensures value { result ≡ end_of self.now }
        ensures good { IsGood self.now }
    {
        image::catalogue_end(self.layout(), self.image())
    }

    /// Sector n.
    pub fn sector(&self, n: u32) -> &[u8; 256]
        requires { n < sectors_of self.now }
        ensures value { result.now ≡ sector self.now n }
        ensures good { IsGood self.now }
    {
        image::sector(&self.bytes, n as usize)
    }

    /// Its layout.
    pub fn layout(&self) -> Layout
        ensures { result ≡ layout_of self.now }
    {
        layout::layout_of(self.image())
    }

    /// Its version: 1, or 2 where sector numbers take three bytes.
    pub fn version(&self) -> u8
        ensures { result ≡ version_of (layout_of self.now) }
    {
        self.layout().version()
    }

    /// A blank platter of a version: an index of two sectors, no files, and the catalogue to its end.
    pub fn blank(alloc: Global, sectors: u32, version: u8) -> Result<Platter, NoMemory>
        requires first { 1 ≤ version }
        requires last { version ≤ 2 }
        requires least { 16 ≤ sectors }
        requires most { sectors ≤ most_sectors (by_version version) }
        ensures { IfOk result (λ p. p ≡ blank_image (by_version version) sectors) }
    {
        let layout = layout::by_version(version);
        let mut bytes = vec![in alloc; 0; SECTOR_BYTES * sectors as usize]?;
        edits::clear(
            &mut bytes,
            &edits::image_head(layout, 2, sectors, sectors, 2),
            sectors as usize,
        );
        Ok(Platter { bytes })
    }

    /// Puts the bytes of a file's data sector in place.
    pub fn put_file(&mut self, n: u32, b: &[u8; 256])
        requires { is_data_sector (layout_of self.old) self.old n ≡ true }
        ensures { self.new ≡ put_sector self.old n b.now }
    {
        edits::put_sector(&mut self.bytes, n as usize, b);
    }

    /// Puts the bytes of a sector after the catalogue in place. No file has it.
    pub fn put_spare(&mut self, n: u32, b: &[u8; 256])
        requires low { end_of self.old ≤ n }
        requires high { n < sectors_of self.old }
        ensures { self.new ≡ put_sector self.old n b.now }
    {
        edits::put_sector(&mut self.bytes, n as usize, b);
    }

    /// Puts the bytes of some sectors in place, at once.
    pub fn put_catalogue(&mut self, edits: &[(u32, [u8; 256])])
        requires in_range { All (λ edit. edit.0 < sectors_of self.old) edits.now }
        requires good { IsGood (put_sectors self.old edits.now) }
        ensures { self.new ≡ put_sectors self.old edits.now }
    {
        edits::put_sectors(&mut self.bytes, edits);
    }

    /// Formats the platter: an empty index of `index` sectors, and a catalogue up to a last sector.
    pub fn put_index(&mut self, index: u32, end: u32)
        requires { CanFormat (layout_of self.old) self.old index end }
        ensures { self.new ≡ formatted (layout_of self.old) self.old index end }
    {
        let layout = self.layout();
        let image_head = edits::image_head(layout, index as u8, self.sectors(), end + 1, index);
        edits::clear(&mut self.bytes, &image_head, index as usize);
    }
}

/// What a good image says spells it: from its counts, its slots and its sectors each byte of it comes back. It has no
/// code.
pub fn image_is_what_it_says(bytes: &[u8])
    requires { IsGood bytes.now }
    ensures { spelling (volume bytes.now) ≡ bytes.now }
{}
