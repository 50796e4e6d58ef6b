// The bytes of the volume: document 01, "Medium, state, record". Stores a block at a spot of the lent
// medium, fetches one, and copies one from spot to spot. Knows neither the state nor the record.
//
// The functions here serve the crates above and are not offered to others: what they require is that
// the spot lies in the medium.
#![tactic(auto)]

ghost use Rattle.std.specs.Prelude.{◌≡◌, ◌+◌, ◌≤◌, ◌<◌, ◌^◌, length, take, drop};
ghost use Rattle.std.proofs.lemmas.List.Edits.{sets};
ghost use Rattle.medium.specs.Medium.{most_size, place, bytes_needed, observe, block_store, apply, Inside};

use layout::Spot;

// Document 01's Z and s: the bytes in a block, and the rows on each disk.
#[derive(Clone, Copy)]
pub struct Geometry {
    pub size: usize,
    pub rows: usize,
}

impl Geometry {
    // The bytes that the record and so many disks take.
    pub fn bytes_needed(self, disks: usize) -> usize
        requires size_nonzero { 0 < self.size }
        requires disks_bound { bytes_needed self disks < 2 ^ 64 }
        ensures { result ≡ bytes_needed self disks }
    {
        512 + disks * self.rows * self.size
    }

    // The byte at which a spot starts.
    pub fn place_of(self, p: Spot) -> usize
        requires size_nonzero { 0 < self.size }
        requires p_bound { place self p < 2 ^ 64 }
        ensures { result ≡ place self p }
    {
        512 + (p.disk * self.rows + p.row.0) * self.size
    }
}

// The most bytes in a block, and so of the local array that a copy passes through.
pub const MOST_SIZE: usize = 65_536;

// Kept: three contracts ask for a size within its limits. That is no invariant of Geometry: a volume's is that of any
// state, sound or not.

// Stores a piece at a spot.
pub fn store_block(medium: &mut [u8], g: Geometry, p: Spot, piece: &[u8])
    requires size_in_range { (0 < g.size) × (g.size ≤ most_size) }
    requires inside { Inside g (length medium.old) p }
    requires piece_len { length piece.now ≡ g.size }
    ensures { medium.new ≡ apply g (block_store p piece.now) medium.old }
{
    let at = g.place_of(p);
    let spot = &mut medium[at..at + g.size];
    spot.copy_from_slice(piece);
}

// Fills a piece from a spot.
pub fn fetch_block(medium: &[u8], g: Geometry, p: Spot, piece: &mut [u8])
    requires size_in_range { (0 < g.size) × (g.size ≤ most_size) }
    requires inside { Inside g (length medium.now) p }
    requires piece_len { length piece.old ≡ g.size }
    ensures { piece.new ≡ (observe medium.now).bytes_at g p }
{
    let at = g.place_of(p);
    let spot = &medium[at..at + g.size];
    piece.copy_from_slice(spot);
}

// Copies n bytes from one place of the medium to another, through a local array that the compiler takes out. Kept: by the
// library's `copy_within` a copy takes more instructions than its limit.
fn copy_bytes(medium: &mut [u8], from: usize, to: usize, n: usize)
    requires n_le_most_size { n ≤ most_size }
    requires from_in_bounds { from + n ≤ length medium.old }
    requires to_in_bounds { to + n ≤ length medium.old }
    ensures { medium.new ≡ sets medium.old to (take n (drop from medium.old)) }
{
    let mut held = [0; MOST_SIZE];
    let bytes = &mut held[..n];
    bytes.copy_from_slice(&medium[from..from + n]);
    medium[to..to + n].copy_from_slice(bytes);
}

// Copies the block at one spot to another.
pub fn copy_block(medium: &mut [u8], g: Geometry, from: Spot, to: Spot)
    requires size_in_range { (0 < g.size) × (g.size ≤ most_size) }
    requires from_inside { Inside g (length medium.old) from }
    requires to_inside { Inside g (length medium.old) to }
    ensures { medium.new ≡ apply g (block_store to ((observe medium.old).bytes_at g from)) medium.old }
{
    let source = g.place_of(from);
    let target = g.place_of(to);
    copy_bytes(medium, source, target, g.size);
}
