// Tagged fields: a one-byte tag, a two-byte length, and the content; words stand in it as four bytes, the highest first.
#![tactic(auto)]

ghost use Rattle.std.specs.Prelude.{◌≡◌, ◌+◌, ◌*◌, ◌<◌, ◌≤◌, length};
ghost use Rattle.std.proofs.lemmas.List.Edits.{sets};
ghost use Rattle.fields.specs.Fields.{word_bytes, word_at, words_at, head_of, count_at, head_at};

// Stores the four bytes of a word from `at` on.
pub fn put_word(out: &mut [u8], at: usize, w: u32)
    requires { at + 4 ≤ length out.old }
    ensures { out.new ≡ sets out.old at (word_bytes w) }
{
    out[at..at + 4].copy_from_slice(&w.to_be_bytes());
}

// The word whose first byte is at `at`.
pub fn word_at(src: &[u8], at: usize) -> u32
    requires { at + 4 ≤ length src.now }
    ensures { result ≡ word_at src.now at }
{
    words::join(src[at], src[at + 1], src[at + 2], src[at + 3])
}

// Reads as many words as `out` has, from `at` on.
pub fn get_words(src: &[u8], at: usize, out: &mut [u32])
    requires { at + length out.old * 4 ≤ length src.now }
    ensures { out.new ≡ words_at src.now at (length out.old) }
{
    for (i, word) in out.iter_mut().enumerate() {
        *word = word_at(src, at + i * 4);
    }
}

// Stores a field's head: its tag, and the length of its content.
pub fn put_head(out: &mut [u8], at: usize, tag: u8, n: usize)
    requires { (at + 3 ≤ length out.old) × (n < 65536) }
    ensures { out.new ≡ sets out.old at (head_of tag n) }
{
    let [upper, lower] = (n as u16).to_be_bytes();
    out[at..at + 3].copy_from_slice(&[tag, upper, lower]);
}

// The length that the head at `at` gives its field's content.
pub fn count_at(src: &[u8], at: usize) -> usize
    requires { at + 3 ≤ length src.now }
    ensures { (result ≡ count_at src.now at) × (result < 65536) }
{
    u16::from_be_bytes([src[at + 1], src[at + 2]]) as usize
}

// Does the head of a field with this tag and length stand at `at`?
pub fn has_head(src: &[u8], at: usize, tag: u8, n: usize) -> bool
    requires { at + 3 ≤ length src.now }
    ensures { result ≡ head_at src.now at tag n }
{
    src[at] == tag && count_at(src, at) == n
}
