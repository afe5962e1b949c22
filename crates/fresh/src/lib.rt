// Reset of what is lent: entries and cache data are 0, lines invalid, each set's use code 63.
#![tactic(auto)]

ghost use Rattle.std.specs.Prelude.{◌≡◌};
ghost use Rattle.fresh.specs.Fresh.{cleared_of, fresh_word, fresh_lines};

// All words 0.
pub fn clear(words: &mut [u32])
    ensures { words.new ≡ cleared_of words.old }
{
    words.fill(0);
}

// What stands at a place of the directory: an invalid line, or a use code.
fn word(i: usize) -> u32
    ensures { result ≡ fresh_word i }
{
    if i % 5 == 4 { 63 } else { 3 }
}

// The directory with every line invalid.
pub fn empty(lines: &mut [u32])
    ensures { lines.new ≡ fresh_lines lines.old }
{
    for (i, line) in lines.iter_mut().enumerate() {
        *line = word(i);
    }
}
