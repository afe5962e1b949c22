// Malformed calls: the first refusal that applies, tested in rising order of the numbers.
#![tactic(auto)]

ghost use Rattle.std.specs.Prelude.{◌≡◌};
ghost use Rattle.words.specs.Words.{pick};
ghost use Rattle.state.specs.Refusal.{number_of, number_in};
ghost use Rattle.refusals.specs.Refusals.{ram_test, rom_test, cells_test, address_test, enables_test, offset_test, out_test, access_refusal, snoop_refusal, read_refusal, write_refusal, reset_refusal, save_refusal};

use state::Refusal;

// The refusal, unless what a call needs holds.
fn given(holds: bool, refusal: Refusal) -> Result<(), Refusal>
    ensures { number_in result ≡ pick holds 0 (number_of refusal) }
{
    if holds { Ok(()) } else { Err(refusal) }
}

fn ram_test(ram: usize) -> Result<(), Refusal>
    ensures { number_in result ≡ ram_test ram 0 }
{
    given(memory::ram_rule(ram), Refusal::RamLength)
}

fn rom_test(rom: usize) -> Result<(), Refusal>
    ensures { number_in result ≡ rom_test rom 0 }
{
    given(memory::rom_rule(rom), Refusal::RomLength)
}

fn cells_test(cells: usize) -> Result<(), Refusal>
    ensures { number_in result ≡ cells_test cells 0 }
{
    given(cells == 4096, Refusal::CellsLength)
}

fn address_test(address: u32) -> Result<(), Refusal>
    ensures { number_in result ≡ address_test address 0 }
{
    given(address % 4 == 0, Refusal::Address)
}

fn enables_test(enables: u32) -> Result<(), Refusal>
    ensures { number_in result ≡ enables_test enables 0 }
{
    given(enables <= 15, Refusal::Enables)
}

fn offset_test(offset: u32) -> Result<(), Refusal>
    ensures { number_in result ≡ offset_test offset 0 }
{
    given(offset <= 4092 && offset % 4 == 0, Refusal::Offset)
}

fn out_test(out: usize) -> Result<(), Refusal>
    ensures { number_in result ≡ out_test out 0 }
{
    given(22039 <= out, Refusal::OutputLength)
}

pub fn access(
    ram: usize,
    rom: usize,
    cells: usize,
    address: u32,
    enables: u32,
) -> Result<(), Refusal>
    ensures { number_in result ≡ access_refusal ram rom cells address enables }
{
    ram_test(ram)?;
    rom_test(rom)?;
    cells_test(cells)?;
    address_test(address)?;
    enables_test(enables)
}

pub fn snoop(ram: usize, cells: usize, address: u32) -> Result<(), Refusal>
    ensures { number_in result ≡ snoop_refusal ram cells address }
{
    ram_test(ram)?;
    cells_test(cells)?;
    address_test(address)
}

#[tactic(auto, unfolding(crate::specs::Refusals::read_refusal))]
pub fn read(offset: u32) -> Result<(), Refusal>
    ensures { number_in result ≡ read_refusal offset }
{
    offset_test(offset)
}

pub fn write(ram: usize, rom: usize, cells: usize, offset: u32) -> Result<(), Refusal>
    ensures { number_in result ≡ write_refusal ram rom cells offset }
{
    ram_test(ram)?;
    rom_test(rom)?;
    cells_test(cells)?;
    offset_test(offset)
}

#[tactic(auto, unfolding(crate::specs::Refusals::reset_refusal))]
pub fn reset(cells: usize) -> Result<(), Refusal>
    ensures { number_in result ≡ reset_refusal cells }
{
    cells_test(cells)
}

pub fn save(cells: usize, out: usize) -> Result<(), Refusal>
    ensures { number_in result ≡ save_refusal cells out }
{
    cells_test(cells)?;
    out_test(out)
}
