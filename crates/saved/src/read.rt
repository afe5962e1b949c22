// The registers and the fault pair that fields 1 and 2 of an image hold.
ghost use Rattle.std.specs.Prelude.{◌≡◌, ◌≤◌, length};
ghost use Rattle.saved.specs.Image.{registers_at, pair_at};

use state::{FaultPair, Registers};

pub fn registers_at(src: &[u8]) -> Registers
    requires { 78 ≤ length src.now }
    ensures { result ≡ registers_at src.now }
{
    let mut ports = [0u32; 8];
    fields::get_words(src, 46, &mut ports);
    Registers {
        idr: fields::word_at(src, 3),
        scr: fields::word_at(src, 7),
        ssr: fields::word_at(src, 11),
        sar: fields::word_at(src, 15),
        sctr: fields::word_at(src, 19),
        sapr: fields::word_at(src, 31),
        uapr: fields::word_at(src, 35),
        pointer: fields::word_at(src, 39),
        ports,
    }
}

pub fn pair_at(src: &[u8]) -> FaultPair
    requires { 78 ≤ length src.now }
    ensures { result ≡ pair_at src.now }
{
    FaultPair {
        status: fields::word_at(src, 23),
        address: fields::word_at(src, 27),
    }
}
