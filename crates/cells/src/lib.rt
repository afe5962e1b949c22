// The words of the cache's lines: the four of place p stand at 4p.
#![tactic(auto)]

ghost use Rattle.std.specs.Prelude.{◌≡◌, ◌<◌};
ghost use Rattle.cells.specs.Cells.{cell_of, cell_at, word_at, merged_at, line_words};

use state::Place;

// The word of its line: bits 3-2.
fn cell_of(address: u32) -> usize
    ensures { (result ≡ cell_of address) × (result < 4) }
{
    words::bits(address, 3, 2) as usize
}

// Where a line holds the word of an address.
fn cell_at(p: Place, address: u32) -> usize
    ensures { (result ≡ cell_at p address) × (result < 4096) }
{
    p.index() * 4 + cell_of(address)
}

// The word of an address in one line.
pub fn word(cells: &[u32; 4096], p: Place, address: u32) -> u32
    ensures { result ≡ word_at cells.now p address }
{
    cells[cell_at(p, address)]
}

// Takes the enabled bytes of a word onto the one that a line holds for an address.
pub fn merge(cells: &mut [u32; 4096], p: Place, address: u32, enables: u32, word: u32)
    ensures { cells.new ≡ merged_at cells.old p address enables word }
{
    let at = cell_at(p, address);
    cells[at] = words::merge(enables, cells[at], word);
}

// The four words of one line, as they stand, for a copyback.
pub fn line_words(cells: &[u32; 4096], p: Place) -> &[u32; 4]
    ensures { result.now ≡ line_words cells.now p }
{
    cells[p.index() * 4..].first_chunk().unwrap()
}
