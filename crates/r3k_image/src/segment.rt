//! Segments of an image: words at consecutive addresses.

ghost use Rattle.std.specs.Prelude.{◌≡◌, ◌<◌, ◌≤◌, length, option_map, option_copied};
ghost use Rattle.std.specs.List.Sorted.{IsPartitionPoint};
ghost use Rattle.r3k_image.specs.Segments.{views, view, AreSegments, last_at};

/// Words at consecutive physical addresses.
#[derive(Debug, Drop)]
pub struct Segment {
    pub address: u32,
    pub words: Vec<u32>,
}

impl Segment {
    ghost use Rattle.std.specs.Prelude.{◌≡◌, ◌↔◌, IsTrue, length};
    ghost use Rattle.r3k_image.specs.Segments.{end_of};

    /// Whether it ends at an address.
    pub fn ends_at(&self, address: u32) -> bool
        ensures { IsTrue result ↔ (end_of self.now.address (length self.now.words.items) ≡ address) }
    {
        if address < self.address {
            return false;
        }
        let offset = address - self.address;
        offset % 4 == 0 && offset as usize / 4 == self.words.len()
    }
}

/// How many segments begin at or below an address: the first ones, found by halving.
pub fn count_up_to(segments: &[Segment], address: u32) -> usize
    requires { AreSegments 0 (views segments.now) }
    ensures parted { IsPartitionPoint (λ s. s.address ≤ address) (λ s. address < s.address)
        segments.now result }
    ensures bound { result ≤ length segments.now }
{
    segments.partition_point(|segment| segment.address <= address)
}

/// The last segment that begins at or below an address.
pub fn last_segment_at(segments: &[Segment], address: u32) -> Option<&Segment>
    requires { AreSegments 0 (views segments.now) }
    ensures { option_map (λ s. view s.now) result ≡ last_at address (views segments.now) }
{
    segments[..count_up_to(segments, address)].last()
}
