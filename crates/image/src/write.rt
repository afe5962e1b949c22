// A field of a unit's words, own bits only.
ghost use Rattle.std.specs.Prelude.{◌≡◌, ◌+◌, ◌*◌, ◌<◌, ◌≤◌, length};
ghost use Rattle.std.proofs.lemmas.List.Edits.{sets};
ghost use Rattle.fields.specs.Fields.{bytes_of, field_of};
ghost use Rattle.saved.specs.Chip.{own_words, own_registers, own_pair};
ghost use Rattle.saved.specs.Image.{register_words};

use saved::Layout;
use state::{FaultPair, Registers, own};

// Stores the own bits of each word of `src`, from `at` on.
fn content(layout: Layout, src: &[u32], out: &mut [u8], at: usize)
    requires { at + length src.now * 4 ≤ length out.old }
    ensures { out.new ≡ sets out.old at (bytes_of (own_words layout src.now)) }
{
    for (i, word) in src.iter().enumerate() {
        fields::put_word(out, at + i * 4, saved::own_word(layout, i, *word));
    }
}

// Stores a field: its head, and the own bits of its words.
pub fn field(tag: u8, layout: Layout, src: &[u32], out: &mut [u8], at: usize)
    requires { (at + 3 + length src.now * 4 ≤ length out.old) × (length src.now < 16384) }
    ensures { out.new ≡ sets out.old at (field_of tag (bytes_of (own_words layout src.now))) }
{
    fields::put_head(out, at, tag, src.len() * 4);
    content(layout, src, out, at + 3);
}

// The ten words of field 1, own bits only.
#[tactic(auto, unfolding(saved::specs::Chip::own_registers, saved::specs::Chip::own_pair))]
pub fn register_words(u: &Registers, pair: &FaultPair) -> [u32; 10]
    ensures { result ≡ register_words (own_registers u.now) (own_pair pair.now) }
{
    [
        own::idr(u.idr),
        own::code(u.scr),
        own::ssr(u.ssr),
        u.sar,
        own::sctr(u.sctr),
        own::status(pair.status),
        pair.address,
        own::area(u.sapr),
        own::area(u.uapr),
        own::pointer(u.pointer),
    ]
}
