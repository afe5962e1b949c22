// A table search's two descriptors: where they stand, and what they make together.
#![tactic(auto, unfolding(crate::specs::Pages::segment_at, crate::specs::Pages::page_at, crate::specs::Pages::combined_of, crate::specs::Pages::stale_of, crate::specs::Pages::described_of, crate::specs::Pages::renewed_of, crate::specs::Pages::page_word_of, crate::specs::Pages::frame_word_of))]

ghost use Rattle.std.specs.Prelude.{◌≡◌, ◌||◌, ◌<◌};
ghost use Rattle.words.specs.Words.{bit_of};
ghost use Rattle.pages.specs.Pages.{segment_at, page_at, combined_of, stale_of, renewed_of, described_of, page_word_of, frame_word_of};

use crate::Translation;

// The segment descriptor stands at base + 4 x bits 31-22 of the address.
pub fn segment_at(area: u32, address: u32) -> u32
    ensures { result ≡ segment_at area address }
{
    words::bits(area, 31, 12) * 4096 + words::bits(address, 31, 22) * 4
}

// The page descriptor stands at base + 4 x bits 21-12.
pub fn page_at(segment: u32, address: u32) -> u32
    ensures { result ≡ page_at segment address }
{
    words::bits(segment, 31, 12) * 4096 + words::bits(address, 21, 12) * 4
}

// Is a bit set in either descriptor?
fn in_either(segment: u32, page: u32, n: u32) -> bool
    requires { n < 32 }
    ensures { result ≡ (bit_of segment n || bit_of page n) }
{
    words::bit(segment, n) | words::bit(page, n)
}

// .. or in the area pointer?
fn in_any(area: u32, segment: u32, page: u32, n: u32) -> bool
    requires { n < 32 }
    ensures { result ≡ (bit_of area n || bit_of segment n || bit_of page n) }
{
    words::bit(area, n) | words::bit(segment, n) | words::bit(page, n)
}

// The translation of a search: SP and WP over both descriptors; WT, G and CI over area, segment and page.
pub fn combined(area: u32, segment: u32, page: u32, address: u32) -> Translation
    ensures { result ≡ combined_of area segment page address }
{
    Translation {
        address: words::bits(page, 31, 12) * 4096 + words::bits(address, 11, 0),
        wt: in_any(area, segment, page, 9),
        sp: in_either(segment, page, 8),
        g: in_any(area, segment, page, 7),
        ci: in_any(area, segment, page, 6),
        m: words::bit(page, 4),
        u: words::bit(page, 3),
        wp: in_either(segment, page, 2),
    }
}

// Must the page descriptor be written back? U is clear, or a write finds M clear.
pub fn stale(t: Translation, write: bool) -> bool
    ensures { result ≡ stale_of t write }
{
    !t.u | (write & !t.m)
}

// The page descriptor with U set, and M set for a write.
pub fn described(page: u32, write: bool) -> u32
    ensures { result ≡ described_of page write }
{
    let used = page / 16 * 16 + 8 + page % 8;
    if write {
        return used / 32 * 32 + 16 + used % 16;
    }
    used
}

// The translation as it then stands.
pub fn renewed(t: Translation, write: bool) -> Translation
    ensures { result ≡ renewed_of t write }
{
    Translation {
        m: t.m | write,
        u: true,
        ..t
    }
}

// An entry's page word: the page, S at bit 1 and V at bit 0.
pub fn page_word(address: u32, supervisor: bool) -> u32
    ensures { result ≡ page_word_of address supervisor }
{
    words::bits(address, 31, 12) * 4096 + words::flag(supervisor, 2) + 1
}

// An entry's frame word: the frame with WT, SP, G, CI, M and WP as in a page descriptor.
pub fn frame_word(t: Translation) -> u32
    ensures { result ≡ frame_word_of t }
{
    words::bits(t.address, 31, 12) * 4096
        + words::flag(t.wt, 512)
        + words::flag(t.sp, 256)
        + words::flag(t.g, 128)
        + words::flag(t.ci, 64)
        + words::flag(t.m, 16)
        + words::flag(t.wp, 4)
}
