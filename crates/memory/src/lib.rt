// Memory as the host lends it: RAM from address 0, ROM from FFE00000. Nobody else moves a word.
#![tactic(auto)]

ghost use Rattle.std.specs.Prelude.{◌≡◌, ◌+◌, ◌*◌, ◌/◌, ◌<◌, ◌≤◌, length, take, []};
ghost use Rattle.memory.specs.Memory.{is_area, whole_of, ram_rule, rom_rule, ram_place, ram_line, rom_word, moved_in, read_in, part_in, part_of, shown_of, read_of, wrote, put_of, write_word_of, write_line_of};

// ROM's first word, FFE00000 / 4.
const ROM: usize = 1073217536;

// A transaction that ended well: the words to list, and what was moved.
#[derive(Clone, Copy)]
pub struct Done<T> {
    pub words: u8,
    pub moved: T,
}

// A transaction that ended in a bus error: the words to list, and the address that failed.
#[derive(Clone, Copy)]
pub struct BusError {
    pub words: u8,
    pub address: u32,
}

// An area's length is a multiple of 4, up to its limit.
fn is_area<const LIMIT: usize>(len: usize) -> bool
    ensures { result ≡ is_area LIMIT len }
{
    (len % 4 == 0) & (len <= LIMIT)
}

// RAM's length is a multiple of 4, at most 4,194,304.
pub fn ram_rule(len: usize) -> bool
    ensures { result ≡ ram_rule len }
{
    is_area::<4194304>(len)
}

// ROM's length is a multiple of 4, at most 262,144.
pub fn rom_rule(len: usize) -> bool
    ensures { result ≡ rom_rule len }
{
    is_area::<262144>(len)
}

// Where an address's word would stand in RAM.
fn ram_place(address: u32) -> usize
    ensures { (result ≡ ram_place address) × (result < 1073741824) }
{
    (address / 4) as usize
}

// Where the first word of an address's line would stand in RAM.
fn ram_line(address: u32) -> usize
    ensures { (result ≡ ram_line address) × (result + 4 ≤ 1073741824) }
{
    (address / 16) as usize * 4
}

// A bus error that moved no word.
fn bus_error(address: u32) -> BusError
    ensures { (result.words ≡ 0) × (result.address ≡ address) }
{
    BusError { words: 0, address }
}

// .. at the first word of an address's line.
fn line_error(address: u32) -> BusError
    ensures { (result.words ≡ 0) × (result.address ≡ address / 16 * 16) }
{
    bus_error(address / 16 * 16)
}

// What showing a part of memory moved: its four words, or none where it came back empty.
#[tactic(auto, unfolding(crate::specs::Memory::shown_of))]
pub fn shown(part: &[u32], address: u32) -> Result<Done<&[u32; 4]>, BusError>
    ensures moved { moved_in result ≡ shown_of part.now address }
    ensures part { part_in result ≡ whole_of part.now }
{
    match part.first_chunk() {
        Some(moved) => Ok(Done { words: 4, moved }),
        None => Err(line_error(address)),
    }
}

// The part that holds an address's line: its four words where they stand, or no words.
#[tactic(auto, unfolding(crate::specs::Memory::part_of))]
fn part<'a>(ram: &'a [u32], rom: &'a [u32], address: u32) -> &'a [u32]
    ensures part { result.now ≡ part_of ram.now rom.now address }
    ensures whole { take 4 result.now ≡ result.now }
    ensures none { length result.now < 4 → result.now ≡ [] }
{
    let at = ram_line(address);
    if at + 4 <= ram.len() {
        return &ram[at..at + 4];
    }
    if ROM <= at && at - ROM + 4 <= rom.len() {
        return &rom[at - ROM..at - ROM + 4];
    }
    &[]
}

// The line that holds an address: its four words where they stand.
pub fn line<'a>(
    ram: &'a [u32],
    rom: &'a [u32],
    address: u32,
) -> Result<Done<&'a [u32; 4]>, BusError>
    ensures part { part_in result ≡ part_of ram.now rom.now address }
    ensures moved { moved_in result ≡ shown_of (part_of ram.now rom.now address) address }
{
    shown(part(ram, rom, address), address)
}

// One word read.
#[tactic(auto, unfolding(crate::specs::Memory::read_of))]
pub fn read_word(ram: &[u32], rom: &[u32], address: u32) -> Result<Done<u32>, BusError>
    ensures { read_in result ≡ read_of ram.now rom.now address }
{
    let at = ram_place(address);
    if at < ram.len() {
        return Ok(Done {
            words: 1,
            moved: ram[at],
        });
    }
    if ROM <= at && at - ROM < rom.len() {
        return Ok(Done {
            words: 1,
            moved: rom[at - ROM],
        });
    }
    Err(bus_error(address))
}

// One word written under enables, onto the word that stands there.
#[tactic(auto, unfolding(crate::specs::Memory::write_word_of))]
pub fn write_word(
    ram: &mut [u32],
    address: u32,
    enables: u32,
    word: u32,
) -> Result<Done<()>, BusError>
    ensures { wrote (moved_in result) ram.new ≡ write_word_of ram.old address enables word }
{
    let at = ram_place(address);
    if at < ram.len() {
        ram[at] = words::merge(enables, ram[at], word);
        return Ok(Done {
            words: 1,
            moved: (),
        });
    }
    Err(bus_error(address))
}

// Four words stored from a place on.
#[tactic(auto, unfolding(crate::specs::Memory::put_of))]
pub fn put(words: &mut [u32], at: usize, part: &[u32])
    requires { (at + 4 ≤ length words.old) × (4 ≤ length part.now) }
    ensures { words.new ≡ put_of words.old at part.now }
{
    words[at] = part[0];
    words[at + 1] = part[1];
    words[at + 2] = part[2];
    words[at + 3] = part[3];
}

// A line written.
#[tactic(auto, unfolding(crate::specs::Memory::write_line_of))]
pub fn write_line(ram: &mut [u32], address: u32, part: &[u32]) -> Result<Done<()>, BusError>
    requires { 4 ≤ length part.now }
    ensures { wrote (moved_in result) ram.new ≡ write_line_of ram.old address part.now }
{
    let at = ram_line(address);
    if ram.len() < at + 4 {
        return Err(line_error(address));
    }
    put(ram, at, part);
    Ok(Done {
        words: 4,
        moved: (),
    })
}
